// A refusal: its fault, what it speaks of, and the position there.
#![tactic(auto)]

ghost use Rattle.std.specs.Prelude.{◌≡◌};
ghost use Rattle.refusal.specs.Fault.{number_of};
ghost use Rattle.refusal.specs.Result.{refusal};
ghost use Rattle.refusal.specs.SubjectWords.{subject_word};

// What a refusal speaks of.
#[derive(Clone, Copy, PartialEq, Eq)]
pub enum Subject {
    Constraint,
    Answer,
    Values,
    Verdicts,
    Output,
    Call,
    Starts,
    Lists,
    Results,
}

impl Subject {
    pub fn word(self) -> &'static [u8]
        ensures { result.now ≡ subject_word self }
    {
        match self {
            Subject::Constraint => b"constraint",
            Subject::Answer => b"answer",
            Subject::Values => b"values",
            Subject::Verdicts => b"verdicts",
            Subject::Output => b"output",
            Subject::Call => b"call",
            Subject::Starts => b"starts",
            Subject::Lists => b"lists",
            Subject::Results => b"results",
        }
    }
}

// Why something is refused, under the numbers of the scope document.
#[derive(Clone, Copy, PartialEq, Eq)]
pub enum Fault {
    FileTooLong = 1,
    ByteNotAllowed = 2,
    UnknownLine = 3,
    MisplacedLine = 4,
    WrongVersion = 5,
    WrongExpectation = 6,
    TokenCount = 7,
    Misspelt = 8,
    NotAWidth = 9,
    NumberTooLarge = 10,
    OverLimit = 11,
    NameTaken = 12,
    NotDeclared = 13,
    UnknownOperator = 14,
    TypeRuleBroken = 15,
    NoSolutionWord = 16,
    NotSatisfiable = 17,
    ValueDoesNotFit = 18,
    SetTwice = 19,
    NotSet = 20,
    TooShort = 21,
    NotSatisfied = 22,
    NoSuchVariable = 23,
    HeldDoesNotFit = 24,
    WrongIndex = 25,
}

impl Fault {
    pub fn number(self) -> u8
        ensures { result ≡ number_of self }
    {
        self as u8
    }
}

#[derive(Clone, Copy, PartialEq, Eq)]
pub struct Refusal {
    pub fault: Fault,
    pub subject: Subject,
    pub position: usize,
}

impl Refusal {
    pub fn of(subject: Subject, fault: Fault, position: usize) -> Self
        ensures { result ≡ refusal subject fault position }
    {
        Self {
            fault,
            subject,
            position,
        }
    }
}
