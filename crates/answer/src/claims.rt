// The claims: each is the contract of an empty function, so that a check lists it by name.
ghost use Rattle.text.specs.Endings.{ContentsDecide, ReturnsChangeNothing, NoOtherReturn};
ghost use Rattle.answer.specs.Claims.{AcceptsExactly, ForAnswers};

// The reader accepts exactly the answers that are well formed, say SATISFIABLE and set every variable once, no other name, to a value that fits.
pub fn accepts_exactly()
    ensures { AcceptsExactly }
{}

// The contents of its lines decide what an answer sets, however they end.
pub fn contents_decide()
    ensures { ForAnswers ContentsDecide }
{}

// With a CR put in front of every LF, an answer without CR sets what it set without them, as long as it is not too long.
pub fn returns_change_nothing()
    ensures { ForAnswers ReturnsChangeNothing }
{}

// In an answer that is accepted, LF stands directly behind each CR.
pub fn no_other_return()
    ensures { ForAnswers NoOtherReturn }
{}
