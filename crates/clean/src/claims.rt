// The claims: each is the contract of an empty function, so that a check lists it by name.
ghost use Rattle.clean.specs.Claims.{ReadsBack, SameVerdicts, CleanAgain, NeverLonger, RoomOfTheFile, EqualExactly};

// The clean text of a file is accepted, and reads to the very same file.
pub fn reads_back()
    ensures { ReadsBack }
{}

// It has the same verdicts under every assignment.
pub fn same_verdicts()
    ensures { SameVerdicts }
{}

// Cleaning it again changes nothing.
pub fn clean_again()
    ensures { CleanAgain }
{}

// It is never longer than the file.
pub fn never_longer()
    ensures { NeverLonger }
{}

// Room for as many bytes as the file has is always enough.
pub fn room_of_the_file()
    ensures { RoomOfTheFile }
{}

// Two files clean to equal bytes exactly when they say the same.
pub fn equal_exactly()
    ensures { EqualExactly }
{}
