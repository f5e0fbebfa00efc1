// Sums, differences and products modulo 2^k.
ghost use Rattle.std.specs.Prelude.{◌≡◌, ◌*◌, ◌%◌, ◌^◌};
ghost use Rattle.edition.specs.Word.{word_bits};
ghost use Rattle.arithmetic.specs.Arithmetic.{computed};
ghost use Rattle.arithmetic.specs.Evaluable.{NumbersOfBits};

use super::widths::low;
use arithmetic::Arithmetic;

// a * b modulo the size of a word, from products of halves, which fit a word.
fn product(a: u64, b: u64) -> u64
    ensures { result ≡ a * b % 2 ^ word_bits }
{
    let a0 = a & 0xffff_ffff;
    let a1 = a >> 32;
    let b0 = b & 0xffff_ffff;
    let b1 = b >> 32;
    let middle = std::num::wrapping_add_u64(a1 * b0, a0 * b1);
    std::num::wrapping_add_u64(a0 * b0, middle << 32)
}

pub(crate) fn compute(o: Arithmetic, k: u64, a: u64, b: u64) -> u64
    requires { NumbersOfBits k a b }
    ensures { result ≡ computed o k a b }
{
    match o {
        Arithmetic::Add => low(k, std::num::wrapping_add_u64(a, b)),
        Arithmetic::Sub => low(k, std::num::wrapping_sub_u64(a, b)),
        Arithmetic::Mul => low(k, product(a, b)),
    }
}
