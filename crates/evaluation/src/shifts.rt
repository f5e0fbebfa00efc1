// Shifts of a number of k bits by n places, any n.
ghost use Rattle.std.specs.Prelude.{◌≡◌};
ghost use Rattle.arithmetic.specs.declared.Shift.TheVariants.{Shl, Ashr, Lshr};
ghost use Rattle.arithmetic.specs.Arithmetic.{shifted};
ghost use Rattle.arithmetic.specs.Evaluable.{NumberOfBits};

use super::widths::{low, mask, top};
use arithmetic::Shift;

fn left(k: u64, a: u64, n: u64) -> u64
    requires { NumberOfBits k a }
    ensures { result ≡ shifted Shl k a n }
{
    if n < k { low(k, a << n) } else { 0 }
}

fn logical_right(k: u64, a: u64, n: u64) -> u64
    requires { NumberOfBits k a }
    ensures { result ≡ shifted Lshr k a n }
{
    if n < k { a >> n } else { 0 }
}

// A number with its top bit set is shifted upside down, so that ones come in.
fn arithmetic_right(k: u64, a: u64, n: u64) -> u64
    requires { NumberOfBits k a }
    ensures { result ≡ shifted Ashr k a n }
{
    if a < top(k) {
        logical_right(k, a, n)
    } else {
        let m = mask(k);
        m - logical_right(k, m - a, n)
    }
}

pub(crate) fn shift(o: Shift, k: u64, a: u64, n: u64) -> u64
    requires { NumberOfBits k a }
    ensures { result ≡ shifted o k a n }
{
    match o {
        Shift::Shl => left(k, a, n),
        Shift::Ashr => arithmetic_right(k, a, n),
        Shift::Lshr => logical_right(k, a, n),
    }
}
