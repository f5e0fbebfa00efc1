// The claims: each is the contract of an empty function, so that a check lists it by name.
ghost use Rattle.tables.specs.Replies.{OneReply};
ghost use Rattle.tables.specs.Claims.{SatisfiedExactly, ReportedExactly, ContentsDecideChecks, NotAllRefused, NotAllSatisfied};

// Demand 1: any bytes get one reply, of these.
pub fn one_reply()
    ensures { OneReply }
{}

// Demand 2: satisfied exactly when its conditions hold.
pub fn satisfied_exactly()
    ensures { SatisfiedExactly }
{}

// The report says satisfied exactly when they hold.
pub fn reported_exactly()
    ensures { ReportedExactly }
{}

// The contents of the lines decide a check that is accepted, however they end.
pub fn contents_decide()
    ensures { ContentsDecideChecks }
{}

// A check that refuses everything does not meet the contract.
pub fn not_all_refused()
    ensures { NotAllRefused }
{}

// A check that says satisfied to all does not meet the contract.
pub fn not_all_satisfied()
    ensures { NotAllSatisfied }
{}
