// The claims: each is the contract of an empty function, so that a check lists it by name.
ghost use Rattle.moves.specs.WholeRun.{WholeRun, NotIdle, NotOnlyFirst, AsFreshCheck, FrontIsTurn, TouchesNoOther, RefusedTouchesNothing};
ghost use Rattle.moves.specs.Through.{OwnIndexSame, RenewsJustListed};

// Demand 3: from an accepted check, every run answers and leaves what the model does.
pub fn whole_run()
    ensures { WholeRun }
{}

// A run leaves what a check of an answer with these values would leave.
pub fn as_fresh_check()
    ensures { AsFreshCheck }
{}

// A change that does nothing does not meet demand 3.
pub fn not_idle()
    ensures { NotIdle }
{}

// A change that works only the first time does not meet demand 3.
pub fn not_only_first()
    ensures { NotOnlyFirst }
{}

// A change of fronts is a turn of a run.
pub fn front_is_turn()
    ensures { FrontIsTurn }
{}

// A change, on any tables, touches no other value, and no verdict of a line that it does not concern.
pub fn touches_no_other()
    ensures { TouchesNoOther }
{}

// A change that is refused, on any tables, touches nothing.
pub fn refused_touches_nothing()
    ensures { RefusedTouchesNothing }
{}

// A change through the file's own index gives the answer and the tables of one without.
pub fn own_index_same()
    ensures { OwnIndexSame }
{}

// A change through any fitting index renews, and counts as named, just the lines listed.
pub fn renews_just_listed()
    ensures { RenewsJustListed }
{}
