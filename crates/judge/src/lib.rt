// The verdict on a line, and the overall verdict. Nothing here reads text.
#![tactic(auto)]

ghost use Rattle.std.specs.Prelude.{◌≡◌};
ghost use Rattle.judge.specs.Verdict.{verdict_byte};

pub mod claims;
pub mod in_use;
pub mod lines;
pub mod verdicts;

// The verdict on a line, under the bytes that stand for it in a table.
#[derive(Clone, Copy, PartialEq, Eq)]
pub enum Verdict {
    Violated = 0,
    Holds = 1,
    Disregarded = 2,
}

impl Verdict {
    pub fn byte(self) -> u8
        ensures { result ≡ verdict_byte self }
    {
        self as u8
    }
}

// A line's verdict, and its result, 0 where there is none.
#[derive(Clone, Copy)]
pub struct Judged {
    pub verdict: Verdict,
    pub result: u64,
}

// The overall verdict, with the first line that decides it, from 1.
#[derive(Clone, Copy)]
pub enum Overall {
    Satisfied,
    Violated(usize),
    Disregarded(usize),
}
