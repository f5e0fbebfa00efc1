// The tests of an operator's operands.
ghost use Rattle.std.specs.Prelude.{◌≡◌, ◌&&◌, ◌||◌, ◌%◌, ◌^◌, ltb};
ghost use Rattle.arithmetic.specs.Rules.{arity as arityOf, widths_hold, fits as fitsIn, operands_fit, joins as joinsIn, cuts as cutsIn, typed as typedBy};

use super::{Operator, Word};
use edition::{Edition, WORD_BITS};

// The widths of the types i1 and i8.
pub const I1: u64 = 1;

pub const I8: u64 = 8;

// The number of operands that an operator takes.
pub fn arity(op: Operator) -> usize
    ensures { result ≡ arityOf op }
{
    match op {
        Operator::Not => 1,
        Operator::Trun => 1,
        Operator::Extend(_) => 1,
        Operator::Combine(_) => 2,
        Operator::Implies => 2,
        Operator::Compare(_) => 2,
        Operator::Compute(_) => 2,
        Operator::Divide(_) => 2,
        Operator::Move(_) => 2,
        Operator::Conc => 2,
        Operator::Ite => 3,
        Operator::Extr => 3,
    }
}

// The tests a, b and c, as far as the first n of them.
fn taken(n: usize, a: bool, b: bool, c: bool) -> bool
    ensures { result ≡ (a && (ltb n 2 || b) && (ltb n 3 || c)) }
{
    a & ((n < 2) | b) & ((n < 3) | c)
}

// Whether the result and the operands that the operator takes have widths.
pub fn widths_hold(op: Operator, k: u64, a: Word, b: Word, c: Word) -> bool
    ensures { result ≡ widths_hold op k a b c }
{
    let x = Edition::is_width(a.width);
    let y = Edition::is_width(b.width);
    let z = Edition::is_width(c.width);
    Edition::is_width(k) & taken(arity(op), x, y, z)
}

// Whether a value is below 2 to its width.
pub fn fits(w: Word) -> bool
    ensures { result ≡ fitsIn w }
{
    if w.width < WORD_BITS {
        w.value >> w.width == 0
    } else {
        true
    }
}

// x modulo 2^k.
pub fn reduced(k: u64, x: u64) -> u64
    ensures { result ≡ x % 2 ^ k }
{
    if k < WORD_BITS { x % (1 << k) } else { x }
}

// Whether the operands that the operator takes fit their widths.
pub fn operands_fit(op: Operator, a: Word, b: Word, c: Word) -> bool
    ensures { result ≡ operands_fit op a b c }
{
    taken(arity(op), fits(a), fits(b), fits(c))
}

// x and y bits make k, and k is no more than a width may be.
fn joins(k: u64, x: u64, y: u64) -> bool
    ensures { result ≡ joinsIn k x y }
{
    if x <= k {
        (y == k - x) & (k <= Edition::WIDTH)
    } else {
        false
    }
}

// The places from n to m of x are k.
fn cuts(k: u64, x: u64, n: u64, m: u64) -> bool
    ensures { result ≡ cutsIn k x n m }
{
    if n < m {
        (m <= x) & (k == m - n)
    } else {
        false
    }
}

// The type rule of an operator, for a result of width k.
pub fn typed(op: Operator, k: u64, a: Word, b: Word, c: Word) -> bool
    ensures { result ≡ typedBy op k a b c }
{
    let x = a.width;
    let y = b.width;
    let z = c.width;
    match op {
        Operator::Combine(_) => (x == k) & (y == k),
        Operator::Not => x == k,
        Operator::Implies => (k == I1) & (x == I1) & (y == I1),
        Operator::Compare(_) => (k == I1) & (x == y),
        Operator::Ite => (x == I1) & (y == k) & (z == k),
        Operator::Compute(_) => (x == k) & (y == k),
        Operator::Divide(_) => (x == k) & (y == k),
        Operator::Move(_) => (x == k) & (y == I8),
        Operator::Trun => k < x,
        Operator::Extend(_) => x < k,
        Operator::Conc => joins(k, x, y),
        Operator::Extr => (y == I8) & (z == I8) & cuts(k, x, b.value, c.value),
    }
}
