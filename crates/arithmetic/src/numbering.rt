// The operators by number, in the order in which the scope document lists their spellings.
ghost use Rattle.std.specs.Prelude.{◌≡◌};
ghost use Rattle.arithmetic.specs.Numbering.{operator_numbered, operator_number};

use super::{Arithmetic, Bitwise, Comparison, Division, Extension, Operator, Shift};

const OPERATORS: [Operator; 31] = [
    Operator::Combine(Bitwise::And),
    Operator::Combine(Bitwise::Or),
    Operator::Combine(Bitwise::Xor),
    Operator::Not,
    Operator::Implies,
    Operator::Compare(Comparison::Equal),
    Operator::Compare(Comparison::NotEqual),
    Operator::Compare(Comparison::Ule),
    Operator::Compare(Comparison::Uge),
    Operator::Compare(Comparison::Ult),
    Operator::Compare(Comparison::Ugt),
    Operator::Compare(Comparison::Sle),
    Operator::Compare(Comparison::Sge),
    Operator::Compare(Comparison::Slt),
    Operator::Compare(Comparison::Sgt),
    Operator::Ite,
    Operator::Compute(Arithmetic::Add),
    Operator::Compute(Arithmetic::Sub),
    Operator::Compute(Arithmetic::Mul),
    Operator::Divide(Division::Udiv),
    Operator::Divide(Division::Sdiv),
    Operator::Divide(Division::Urem),
    Operator::Divide(Division::Srem),
    Operator::Move(Shift::Shl),
    Operator::Move(Shift::Ashr),
    Operator::Move(Shift::Lshr),
    Operator::Trun,
    Operator::Extend(Extension::Sext),
    Operator::Extend(Extension::Zext),
    Operator::Conc,
    Operator::Extr,
];

// The number of an operator.
#[tactic(auto, unfolding(crate::specs::Numbering::operator_number))]
pub fn operator_number(op: Operator) -> u64
    ensures { result ≡ operator_number op }
{
    match op {
        Operator::Combine(o) => o as u64,
        Operator::Not => 3,
        Operator::Implies => 4,
        Operator::Compare(o) => o as u64,
        Operator::Ite => 15,
        Operator::Compute(o) => o as u64,
        Operator::Divide(o) => o as u64,
        Operator::Move(o) => o as u64,
        Operator::Trun => 26,
        Operator::Extend(o) => o as u64,
        Operator::Conc => 29,
        Operator::Extr => 30,
    }
}

// The operator of a number; any above the last is the last one's.
pub fn operator_numbered(n: u64) -> Operator
    ensures { result ≡ operator_numbered n }
{
    // By a reference: an array constant that is indexed by itself is copied to the stack.
    let operators = &OPERATORS;
    if n < operators.len() as u64 {
        operators[n as usize]
    } else {
        Operator::Extr
    }
}
