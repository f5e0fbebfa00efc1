// Operators that go bit by bit.
ghost use Rattle.std.specs.Prelude.{◌≡◌};
ghost use Rattle.arithmetic.specs.Bits.{combined, inverted};
ghost use Rattle.arithmetic.specs.Evaluable.{NumberOfBits, NumbersOfBits};

use super::widths::mask;
use arithmetic::Bitwise;

pub(crate) fn combine(o: Bitwise, k: u64, a: u64, b: u64) -> u64
    requires { NumbersOfBits k a b }
    ensures { result ≡ combined o k a b }
{
    match o {
        Bitwise::And => a & b,
        Bitwise::Or => a | b,
        Bitwise::Xor => a ^ b,
    }
}

pub(crate) fn invert(k: u64, a: u64) -> u64
    requires { NumberOfBits k a }
    ensures { result ≡ inverted k a }
{
    mask(k) - a
}
