// Operators that change the width.
ghost use Rattle.std.specs.Prelude.{◌≡◌, ◌+◌, ◌*◌, ◌^◌};
ghost use Rattle.arithmetic.specs.declared.Extension.TheVariants.{Sext};
ghost use Rattle.arithmetic.specs.Arithmetic.{extended};
ghost use Rattle.arithmetic.specs.Evaluable.{Wider, Joined};

use super::widths::{mask, top};
use arithmetic::Extension;

// From x bits to k bits.
fn sign_extend(x: u64, k: u64, a: u64) -> u64
    requires { Wider x k a }
    ensures { result ≡ extended Sext x k a }
{
    if a < top(x) {
        a
    } else {
        mask(k) - (mask(x) - a)
    }
}

pub(crate) fn extend(o: Extension, x: u64, k: u64, a: u64) -> u64
    requires { Wider x k a }
    ensures { result ≡ extended o x k a }
{
    match o {
        Extension::Sext => sign_extend(x, k, a),
        Extension::Zext => a,
    }
}

// The y bits of b below the x bits of a.
pub(crate) fn join(x: u64, y: u64, a: u64, b: u64) -> u64
    requires { Joined (x + y) x y a b }
    ensures { result ≡ a * 2 ^ y + b }
{
    (a << y) | b
}
