// Numbers of k bits.
ghost use Rattle.std.specs.Prelude.{◌≡◌, ◌-◌, ◌%◌, ◌^◌};
ghost use Rattle.arithmetic.specs.Evaluable.{IsWidth};

use edition::WORD_BITS;

// 2^k - 1, the largest number of k bits.
pub(crate) fn mask(k: u64) -> u64
    requires { IsWidth k }
    ensures { result ≡ 2 ^ k - 1 }
{
    u64::MAX >> (WORD_BITS - k)
}

// 2^(k - 1), the top bit alone.
pub(crate) fn top(k: u64) -> u64
    requires { IsWidth k }
    ensures { result ≡ 2 ^ (k - 1) }
{
    1 << (k - 1)
}

// The low k bits of x.
pub(crate) fn low(k: u64, x: u64) -> u64
    requires { IsWidth k }
    ensures { result ≡ x % 2 ^ k }
{
    x & mask(k)
}
