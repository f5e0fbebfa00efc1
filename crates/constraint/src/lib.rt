// What a constraint file says, and how it is read: the definitions that the reader meets.
#![tactic(auto)]

use arithmetic::{Operator, Word};

pub mod claims;

// Operands and lines as the definitions see them; in code they stand in the tables of `store`.
#[derive(Clone, Copy)]
pub enum Operand {
    // None: the output of a `p` line, and what an operator does not take.
    Absent,
    // The variable of that number, from 0.
    Var(usize),
    Const(Word),
}

#[derive(Clone, Copy)]
pub struct Operands {
    pub first: Operand,
    pub second: Operand,
    pub third: Operand,
}

// A `c` or `p` line.
#[derive(Clone, Copy)]
pub struct Line {
    pub output: Operand,
    pub operator: Operator,
    pub operands: Operands,
}

// The kind of a line that is not blank.
#[derive(Clone, Copy)]
pub enum Kind {
    Skipped,
    OfVersion,
    OfExpectation,
    OfDeclarations,
    OfStatement(Form),
    OfNoKind,
}

// The forms of a line that must hold: `c`, which has an output, and `p`, which has none.
#[derive(Clone, Copy)]
pub enum Form {
    WithOutput,
    Predicate,
}
