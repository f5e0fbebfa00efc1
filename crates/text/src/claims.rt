// The claims: each is the contract of an empty function, so that a check lists it by name.
ghost use Rattle.text.specs.Endings.{FeedsEndLines, ReturnsKeepContents};

// A file without CR has the lines that end at LF alone.
pub fn feeds_end_lines()
    ensures { FeedsEndLines }
{}

// A CR put in front of every LF of such a file changes the content of no line.
pub fn returns_keep_contents()
    ensures { ReturnsKeepContents }
{}
