// The `c` and `p` lines: their operator, their operands and their type rule.
#![tactic(auto)]

pub mod operations;
mod typing;

// How far a line is read: where the tokens behind that start, the slot of the last operand, and the operator's place.
#[derive(Clone, Copy)]
pub struct Reached {
    pub at: usize,
    pub last: usize,
    pub operator: usize,
}
