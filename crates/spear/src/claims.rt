// The claims: each is the contract of an empty function, so that a check lists it by name.
ghost use Rattle.spear.specs.Code.{ZeroExactly, CodesAre};
ghost use Rattle.spear.specs.Pack.{KindZeroExactly, CheckKept, ChangeKept, IndexKept, CleanKept, WriteKept};

// Demand 2: the number of a check is 0 exactly when its conditions hold.
pub fn zero_exactly()
    ensures { ZeroExactly }
{}

// It is 0, 1, 2 or 101 to 120, for any bytes.
pub fn codes_are()
    ensures { CodesAre }
{}

// Demand 2 of the check into a caller's tables: the kind of its word is 0 exactly when its conditions hold.
pub fn kind_zero_exactly()
    ensures { KindZeroExactly }
{}

// The word of a check loses nothing of its reply.
pub fn check_kept()
    ensures { CheckKept }
{}

// The word of a change, with or without an index, loses nothing of its reply.
pub fn change_kept()
    ensures { ChangeKept }
{}

// The word of the building of an index loses nothing of its reply.
pub fn index_kept()
    ensures { IndexKept }
{}

// The word of a cleaning loses nothing of its reply.
pub fn clean_kept()
    ensures { CleanKept }
{}

// The word of a writing loses nothing of its reply.
pub fn write_kept()
    ensures { WriteKept }
{}
