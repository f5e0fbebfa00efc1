// Comparisons of numbers of k bits.
ghost use Rattle.std.specs.Prelude.{◌≡◌, ◌+◌, ◌-◌, ◌%◌, ◌^◌};
ghost use Rattle.arithmetic.specs.Flags.{compared};
ghost use Rattle.arithmetic.specs.Evaluable.{IsWidth, NumbersOfBits};

use super::widths::{low, top};
use arithmetic::Comparison;

// Signed order is the unsigned order of numbers with the top bit turned over.
fn biased(k: u64, a: u64) -> u64
    requires { IsWidth k }
    ensures { result ≡ (a + 2 ^ (k - 1)) % 2 ^ k }
{
    low(k, std::num::wrapping_add_u64(a, top(k)))
}

pub(crate) fn compare(o: Comparison, k: u64, a: u64, b: u64) -> bool
    requires { NumbersOfBits k a b }
    ensures { result ≡ compared o k a b }
{
    match o {
        Comparison::Equal => a == b,
        Comparison::NotEqual => a != b,
        Comparison::Ule => a <= b,
        Comparison::Uge => b <= a,
        Comparison::Ult => a < b,
        Comparison::Ugt => b < a,
        Comparison::Sle => biased(k, a) <= biased(k, b),
        Comparison::Sge => biased(k, b) <= biased(k, a),
        Comparison::Slt => biased(k, a) < biased(k, b),
        Comparison::Sgt => biased(k, b) < biased(k, a),
    }
}
