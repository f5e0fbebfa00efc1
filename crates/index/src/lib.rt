// The index of a constraint file: which lines name a variable.
#![tactic(auto)]

ghost use Rattle.std.specs.Prelude.{◌≡◌};
ghost use Rattle.index.specs.Index.{index_outcome};

use building::index_held;
use edition::Edition;
use reader::reading::read;
use refusal::Refusal;
use store::lines::{TABLE_BODIES, TABLE_HEADS};

mod building;
pub mod claims;
pub mod fitting;
pub mod naming;

// The two tables of an index that is lent.
#[derive(Clone, Copy)]
pub struct LentIndex<'a> {
    pub starts: &'a [u32],
    pub lists: &'a [u32],
}

// The variables that a line names, each once; where it names fewer than four, `naming::NONE` stands instead.
#[derive(Clone, Copy)]
pub struct LineVariables {
    pub output: usize,
    pub first: usize,
    pub second: usize,
    pub third: usize,
}

// Builds the index of a constraint file, any bytes: where each variable's list starts, with the end of the last, and the lists. It answers how many lines are listed in all.
pub fn index(constraint: &[u8], starts: &mut [u32], lists: &mut [u32]) -> Result<usize, Refusal>
    ensures { record { reply = result; starts = starts.new; lists = lists.new } ≡ index_outcome constraint.now starts.old lists.old }
{
    let mut variables = [0u64; Edition::VARIABLES];
    let mut heads = [0u8; TABLE_HEADS];
    let mut bodies = [0u64; TABLE_BODIES];
    let p = read(constraint, &mut variables, &mut heads, &mut bodies)?;
    index_held(&heads, &bodies, p.variables, p.lines, starts, lists)
}
