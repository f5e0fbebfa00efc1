// The claims: each is the contract of an empty function, so that a check lists it by name.
ghost use Rattle.clean_text.specs.Claims.{TextReadsBack, TextNeverLonger};

// The clean text of an accepted file reads to the very file that it was made from.
pub fn text_reads_back()
    ensures { TextReadsBack }
{}

// It is no longer than the bytes that the file was read from.
pub fn text_never_longer()
    ensures { TextNeverLonger }
{}
