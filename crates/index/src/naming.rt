// Which variables a line in the table names.
ghost use Rattle.std.specs.Prelude.{◌≡◌, cond, ℕ, ◌<◌, eqb, length};
ghost use Rattle.edition.specs.Edition.{max_variables, max_lines};
ghost use Rattle.store.specs.Tables.{line_bodies, table_heads, table_bodies, operand_in, line_in};
ghost use Rattle.index.specs.Select.{is_variable, names as namesIn};
ghost use Rattle.index.specs.Internal.{one, times_named};

use super::LineVariables;
use edition::Edition;
use store::lines::{
    FIRST, OUTPUT, SECOND, TABLE_BODIES, TABLE_HEADS, THIRD, body_of, head_of, is_variable,
};

// The number of no variable.
pub const NONE: usize = Edition::VARIABLES;

// Whether the operand at a slot of line k is variable i.
fn named_at<'a>(
    i: usize,
    heads: &'a [u8; TABLE_HEADS],
    bodies: &'a [u64; TABLE_BODIES],
    k: usize,
    slot: usize,
) -> bool
    requires { (length heads.now ≡ table_heads) × (length bodies.now ≡ table_bodies) × (k < max_lines) × (slot < line_bodies) }
    ensures { result ≡ is_variable i (operand_in heads.now bodies.now k slot) }
{
    let variable = is_variable(head_of(heads, k, slot));
    let j = body_of(bodies, k, slot) as usize;
    variable & (i == j)
}

// Whether line k of the table names variable i, as output or operand.
pub fn names<'a>(
    i: usize,
    heads: &'a [u8; TABLE_HEADS],
    bodies: &'a [u64; TABLE_BODIES],
    k: usize,
) -> bool
    requires { (length heads.now ≡ table_heads) × (length bodies.now ≡ table_bodies) × (k < max_lines) }
    ensures { result ≡ namesIn i (line_in heads.now bodies.now k) }
{
    let a = named_at(i, heads, bodies, k, OUTPUT);
    let b = named_at(i, heads, bodies, k, FIRST);
    let c = named_at(i, heads, bodies, k, SECOND);
    let d = named_at(i, heads, bodies, k, THIRD);
    a | b | c | d
}

// The variable at a slot of line k, or NONE.
fn variable_at<'a>(
    heads: &'a [u8; TABLE_HEADS],
    bodies: &'a [u64; TABLE_BODIES],
    k: usize,
    slot: usize,
) -> usize
    requires { (length heads.now ≡ table_heads) × (length bodies.now ≡ table_bodies) × (k < max_lines) × (slot < line_bodies) }
    ensures { (i : ℕ) → i < max_variables → eqb i result ≡ is_variable i (operand_in heads.now bodies.now k slot) }
{
    if is_variable(head_of(heads, k, slot)) {
        return body_of(bodies, k, slot) as usize;
    }
    NONE
}

// A variable, or NONE where it is named already.
fn unless(named: bool, i: usize) -> usize
    ensures { result ≡ cond named max_variables i }
{
    if named { NONE } else { i }
}

// The variables that line k of the table names, each once.
pub(crate) fn variables_of<'a>(
    heads: &'a [u8; TABLE_HEADS],
    bodies: &'a [u64; TABLE_BODIES],
    k: usize,
) -> LineVariables
    requires { (length heads.now ≡ table_heads) × (length bodies.now ≡ table_bodies) × (k < max_lines) }
    ensures { (i : ℕ) → i < max_variables → times_named i result ≡ one (namesIn i (line_in heads.now bodies.now k)) }
{
    let a = variable_at(heads, bodies, k, OUTPUT);
    let b = variable_at(heads, bodies, k, FIRST);
    let c = variable_at(heads, bodies, k, SECOND);
    let d = variable_at(heads, bodies, k, THIRD);
    LineVariables {
        output: a,
        first: unless(b == a, b),
        second: unless((c == a) | (c == b), c),
        third: unless((d == a) | (d == b) | (d == c), d),
    }
}
