// The operators on values of K bits: their types, rules, numbers and meanings. No function here has a `requires`.
#![tactic(auto)]

pub mod bits;
pub mod claims;
pub mod numbering;
pub mod rules;

// The 31 operators, by kind; operators of one kind share their type rule, and have their numbers as discriminants.
#[derive(Clone, Copy, PartialEq, Eq)]
pub enum Operator {
    Combine(Bitwise),
    Not,
    Implies,
    Compare(Comparison),
    Ite,
    Compute(Arithmetic),
    Divide(Division),
    Move(Shift),
    Trun,
    Extend(Extension),
    Conc,
    Extr,
}

// & | ^
#[derive(Clone, Copy, PartialEq, Eq)]
pub enum Bitwise {
    And = 0,
    Or = 1,
    Xor = 2,
}

// = /= ule uge ult ugt sle sge slt sgt
#[derive(Clone, Copy, PartialEq, Eq)]
pub enum Comparison {
    Equal = 5,
    NotEqual = 6,
    Ule = 7,
    Uge = 8,
    Ult = 9,
    Ugt = 10,
    Sle = 11,
    Sge = 12,
    Slt = 13,
    Sgt = 14,
}

// + - *
#[derive(Clone, Copy, PartialEq, Eq)]
pub enum Arithmetic {
    Add = 16,
    Sub = 17,
    Mul = 18,
}

// /u /s %u %s
#[derive(Clone, Copy, PartialEq, Eq)]
pub enum Division {
    Udiv = 19,
    Sdiv = 20,
    Urem = 21,
    Srem = 22,
}

// << >>a >>l
#[derive(Clone, Copy, PartialEq, Eq)]
pub enum Shift {
    Shl = 23,
    Ashr = 24,
    Lshr = 25,
}

// sext zext
#[derive(Clone, Copy, PartialEq, Eq)]
pub enum Extension {
    Sext = 27,
    Zext = 28,
}

// A value of `width` bits.
#[derive(Clone, Copy, PartialEq, Eq)]
pub struct Word {
    pub width: u64,
    pub value: u64,
}
