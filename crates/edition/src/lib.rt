// The editions of the format, and the limits that belong to them.
#![tactic(auto)]

ghost use Rattle.std.specs.Prelude.{◌≡◌};
ghost use Rattle.edition.specs.Edition.{edition10, limits as limitsOf, is_width};
ghost use Rattle.edition.specs.Word.{word_bits};

// The bits of a word, which holds a value of any width.
pub const WORD_BITS: u64 = 64;

// This contract ties the constant to the definition.
pub fn word_bits() -> u64
    ensures { result ≡ word_bits }
{
    WORD_BITS
}

// A version of the format: `v MAJOR.MINOR`.
#[derive(Clone, Copy)]
pub struct Edition {
    pub major: u64,
    pub minor: u64,
}

// The most bytes of a file, variables, lines of kind `c` or `p`, bytes of a name, and bits of a value.
#[derive(Clone, Copy)]
pub struct Limits {
    pub file: usize,
    pub variables: usize,
    pub lines: usize,
    pub name: usize,
    pub width: u64,
}

impl Edition {
    pub const FILE_BYTES: usize = 65536;

    pub const VARIABLES: usize = 256;

    pub const LINES: usize = 1024;

    pub const NAME_BYTES: usize = 32;

    pub const WIDTH: u64 = 64;

    // Version 1.0.
    pub fn v1_0() -> Self
        ensures { result ≡ edition10 }
    {
        Self { major: 1, minor: 0 }
    }

    // The limits of this edition: this contract is what ties the constants to the definitions.
    pub fn limits(self) -> Limits
        ensures { result ≡ limitsOf self }
    {
        Limits {
            file: Self::FILE_BYTES,
            variables: Self::VARIABLES,
            lines: Self::LINES,
            name: Self::NAME_BYTES,
            width: Self::WIDTH,
        }
    }

    pub fn is_width(k: u64) -> bool
        ensures { result ≡ is_width k }
    {
        (1 <= k) & (k <= Self::WIDTH)
    }
}
