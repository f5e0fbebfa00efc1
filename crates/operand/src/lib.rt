// Reading an operand: a variable by its name, or a constant.
#![tactic(auto)]

pub mod constants;
pub mod variables;

// An operand as the tables hold it.
#[derive(Clone, Copy)]
pub struct Stored {
    pub head: u8,
    pub body: u64,
}

// The next operand, and where the tokens behind it start.
#[derive(Clone, Copy)]
pub struct Taken {
    pub operand: Stored,
    pub stop: usize,
}
