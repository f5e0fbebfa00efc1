// Reading a constraint file into tables.
#![tactic(auto)]

ghost use Rattle.std.specs.Prelude.{◌≡◌};
ghost use Rattle.reader.specs.Inspect.{inspect_outcome};

use edition::Edition;
use reading::read;
use refusal::Refusal;
use store::lines::{TABLE_BODIES, TABLE_HEADS};

pub mod claims;
pub mod reading;

// How many variables and lines a file has.
#[derive(Clone, Copy)]
pub struct Counts {
    pub variables: usize,
    pub lines: usize,
}

// Reads and types any bytes: the refusal, or how many variables and lines the file has.
pub fn inspect(file: &[u8]) -> Result<Counts, Refusal>
    ensures { result ≡ inspect_outcome file.now }
{
    let mut variables = [0u64; Edition::VARIABLES];
    let mut heads = [0u8; TABLE_HEADS];
    let mut bodies = [0u64; TABLE_BODIES];
    let p = read(file, &mut variables, &mut heads, &mut bodies)?;
    Ok(Counts {
        variables: p.variables,
        lines: p.lines,
    })
}
