// The value of an operator whose operands keep its rules. For callers that have shown them to hold.
#![tactic(auto)]

ghost use Rattle.std.specs.Prelude.{◌≡◌, if◌then◌else◌, nat_eq};
ghost use Rattle.arithmetic.specs.Meaning.{truth as truth_of, value_of};
ghost use Rattle.arithmetic.specs.Evaluable.{Evaluable};

use arithmetic::{Bitwise, Operator, Word};
use bits::{combine, invert};
use casts::{extend, join};
use orders::compare;
use quotients::divide;
use shifts::shift;
use sums::compute;
use widths::low;

mod bits;
mod casts;
mod orders;
mod quotients;
mod shifts;
mod sums;
mod widths;

// A truth value as an i1.
fn truth(b: bool) -> u64
    ensures { result ≡ truth_of b }
{
    u64::from(b)
}

fn choose(a: u64, b: u64, c: u64) -> u64
    ensures { result ≡ (if nat_eq a 1 then b else c) }
{
    if a == 1 { b } else { c }
}

// The result of width k; none where the divisor is zero.
#[tactic(auto, unfolding(arithmetic::specs::Meaning::value_of))]
pub fn evaluate(op: Operator, k: u64, a: Word, b: Word, c: Word) -> Option<u64>
    requires { Evaluable op k a b c }
    ensures { result ≡ value_of op k a b c }
{
    let i = a.width;
    let j = b.width;
    let x = a.value;
    let y = b.value;
    let z = c.value;
    match op {
        Operator::Combine(o) => Some(combine(o, k, x, y)),
        Operator::Not => Some(invert(k, x)),
        Operator::Implies => Some(combine(Bitwise::Or, k, invert(k, x), y)),
        Operator::Compare(o) => Some(truth(compare(o, i, x, y))),
        Operator::Ite => Some(choose(x, y, z)),
        Operator::Compute(o) => Some(compute(o, k, x, y)),
        Operator::Divide(o) => if y == 0 {
            None
        } else {
            Some(divide(o, k, x, y))
        },
        Operator::Move(o) => Some(shift(o, k, x, y)),
        Operator::Trun => Some(low(k, x)),
        Operator::Extend(o) => Some(extend(o, i, k, x)),
        Operator::Conc => Some(join(i, j, x, y)),
        Operator::Extr => Some(low(k, x >> y)),
    }
}
