// Quotients and remainders.
ghost use Rattle.std.specs.Prelude.{◌≡◌, ◌<◌, pos, neg_ℤ, unsigned_abs};
ghost use Rattle.arithmetic.specs.declared.Division.TheVariants.{Sdiv, Srem};
ghost use Rattle.arithmetic.specs.Signed.{signed, modulo, ceiling};
ghost use Rattle.arithmetic.specs.Arithmetic.{divided};
ghost use Rattle.arithmetic.specs.Evaluable.{NumberOfBits, NumbersOfBits};

use super::sums::compute;
use super::widths::{mask, top};
use arithmetic::{Arithmetic, Division};

// The magnitude of the signed reading.
fn magnitude(k: u64, a: u64) -> u64
    requires { NumberOfBits k a }
    ensures { result ≡ unsigned_abs (signed k a) }
{
    if a < top(k) { a } else { mask(k) - a + 1 }
}

// -q modulo 2^k.
fn negative(k: u64, q: u64) -> u64
    requires { NumberOfBits k q }
    ensures { result ≡ modulo k (neg_ℤ (pos q)) }
{
    if q == 0 { 0 } else { mask(k) - q + 1 }
}

// a / b, rounded up.
fn rounded_up(a: u64, b: u64) -> u64
    requires { 0 < b }
    ensures { result ≡ ceiling a b }
{
    if a == 0 { 0 } else { (a - 1) / b + 1 }
}

fn signed_quotient(k: u64, a: u64, b: u64) -> u64
    requires { NumbersOfBits k a b × (0 < b) }
    ensures { result ≡ divided Sdiv k a b }
{
    let t = top(k);
    let x = magnitude(k, a);
    let y = magnitude(k, b);
    if (a < t) == (b < t) {
        x / y
    } else {
        negative(k, rounded_up(x, y))
    }
}

fn signed_remainder(k: u64, a: u64, b: u64) -> u64
    requires { NumbersOfBits k a b × (0 < b) }
    ensures { result ≡ divided Srem k a b }
{
    let q = signed_quotient(k, a, b);
    compute(Arithmetic::Sub, k, a, compute(Arithmetic::Mul, k, q, b))
}

pub(crate) fn divide(o: Division, k: u64, a: u64, b: u64) -> u64
    requires { NumbersOfBits k a b × (0 < b) }
    ensures { result ≡ divided o k a b }
{
    match o {
        Division::Udiv => a / b,
        Division::Urem => a % b,
        Division::Sdiv => signed_quotient(k, a, b),
        Division::Srem => signed_remainder(k, a, b),
    }
}
