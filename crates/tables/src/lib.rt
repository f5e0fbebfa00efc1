// The check of an answer against a constraint file, and the report on it.
#![tactic(auto)]

use judge::Overall;

pub mod check;
pub mod claims;
pub mod reports;

// How many lines there are, and how many of each verdict.
#[derive(Clone, Copy)]
pub struct Tally {
    pub lines: usize,
    pub held: usize,
    pub violated: usize,
    pub disregarded: usize,
}

#[derive(Clone, Copy)]
pub struct Report {
    pub overall: Overall,
    pub tally: Tally,
}
