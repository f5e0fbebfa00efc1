// The change of a single value, with and without an index, and runs of changes.
#![tactic(auto)]

use judge::Overall;

mod admission;
pub mod change;
pub mod claims;
mod renewing;
pub mod runs;

// What a change did: the overall verdict by the table, how many lines it concerned, how many verdicts became different, and how many bits of the value.
#[derive(Clone, Copy)]
pub struct Effect {
    pub overall: Overall,
    pub named: usize,
    pub altered: usize,
    pub bits: u64,
}

// How many lines were renewed, and how many verdicts became different.
#[derive(Clone, Copy)]
pub struct Renewal {
    pub named: usize,
    pub altered: usize,
}
