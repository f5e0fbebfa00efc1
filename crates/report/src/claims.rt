// The claims: each is the contract of an empty function, so that a check lists it by name.
ghost use Rattle.report.specs.Claims.{PrintedExactly, CaseWhole};

// Demand 2: the report's first line is `satisfied` exactly when its conditions hold.
pub fn printed_exactly()
    ensures { PrintedExactly }
{}

// The scope document's case gets the report that it has there.
pub fn one_case_whole()
    ensures { CaseWhole }
{}
