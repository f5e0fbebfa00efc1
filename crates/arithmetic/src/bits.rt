// Two words, bit by bit.
ghost use Rattle.std.specs.Prelude.{◌≡◌};
ghost use Rattle.edition.specs.Word.{word_bits};
ghost use Rattle.arithmetic.specs.Bits.{differing_bits};

// In how many bits a and b differ.
pub fn differing_bits(a: u64, b: u64) -> u64
    ensures { result ≡ differing_bits word_bits a b }
{
    u64::count_ones(a ^ b) as u64
}
