// The single-value change, with and without an index.
ghost use Rattle.std.specs.Prelude.{◌≡◌, List, ℕ, ◌≤◌, ◌<◌, length, None, Some, option_map};
ghost use Rattle.edition.specs.Edition.{max_variables, max_lines};
ghost use Rattle.edition.specs.Word.{word_bits};
ghost use Rattle.arithmetic.specs.Bits.{differing_bits};
ghost use Rattle.store.specs.Tables.{table_heads, table_bodies, lines_in, variables_in, AllHeadsFit};
ghost use Rattle.judge.specs.InUse.{tables_of};
ghost use Rattle.judge.specs.Claims.{RowFits};
ghost use Rattle.judge.specs.Fitting.{Judgeable};
ghost use Rattle.index.specs.Index.{index_of, lent_index};
ghost use Rattle.index.specs.Internal.{file_of};
ghost use Rattle.moves.specs.Gate.{changing};
ghost use Rattle.moves.specs.Change.{change_for, change_outcome};

use super::admission::admitted;
use super::renewing::renew_concerned;
use super::{Effect, Renewal};
use arithmetic::bits::differing_bits;
use edition::Edition;
use index::LentIndex;
use judge::Overall;
use judge::verdicts::overall;
use reader::reading::read;
use refusal::Refusal;
use store::lines::{TABLE_BODIES, TABLE_HEADS};

// What an accepted change from one value to another did.
fn effect(overall: Overall, renewal: Renewal, old: u64, new: u64) -> Effect
    ensures { result ≡ record { overall = overall; named = renewal.named; altered = renewal.altered; bits = differing_bits word_bits old new } }
{
    Effect {
        overall,
        named: renewal.named,
        altered: renewal.altered,
        bits: differing_bits(old, new),
    }
}

// A change on the file that the tables hold.
fn change_held<'a>(
    variables: &[u64; Edition::VARIABLES],
    n: usize,
    heads: &'a [u8; TABLE_HEADS],
    bodies: &'a [u64; TABLE_BODIES],
    m: usize,
    values: &mut [u64],
    verdicts: &mut [u8],
    results: &mut [u64],
    index: Option<LentIndex<'_>>,
    i: usize,
    v: u64,
) -> Result<Effect, Refusal>
    requires { (n ≤ max_variables) × (m ≤ max_lines) × (length heads.now ≡ table_heads) × (length bodies.now ≡ table_bodies) × ((row : List ℕ) → ((file : List ℕ) → RowFits (variables_in file variables.now n) row) → (k : ℕ) → k < m → Judgeable row heads.now bodies.now k) }
    ensures { (file : List ℕ) → AllHeadsFit (variables_in file variables.now n) heads.now bodies.now m → record { reply = result; tables = tables_of values.new verdicts.new results.new } ≡ change_for (file_of (variables_in file variables.now n) (lines_in heads.now bodies.now m)) (tables_of values.old verdicts.old results.old) (changing i v (option_map lent_index index.entry)) }
{
    admitted(variables, n, m, values, verdicts, results, index, i, v)?;
    let old = values[i];
    values[i] = v;
    let row = &values[..n];
    let renewal = renew_concerned(heads, bodies, m, row, verdicts, results, index, i);
    Ok(effect(overall(&verdicts[..m]), renewal, old, v))
}

// A change on the file that is read.
pub(crate) fn change_read(
    constraint: &[u8],
    values: &mut [u64],
    verdicts: &mut [u8],
    results: &mut [u64],
    index: Option<LentIndex<'_>>,
    i: usize,
    v: u64,
) -> Result<Effect, Refusal>
    ensures { record { reply = result; tables = tables_of values.new verdicts.new results.new } ≡ change_outcome constraint.now (tables_of values.old verdicts.old results.old) (changing i v (option_map lent_index index.entry)) }
{
    let mut variables = [0u64; Edition::VARIABLES];
    let mut heads = [0u8; TABLE_HEADS];
    let mut bodies = [0u64; TABLE_BODIES];
    let p = read(constraint, &mut variables, &mut heads, &mut bodies)?;
    change_held(
        &variables,
        p.variables,
        &heads,
        &bodies,
        p.lines,
        values,
        verdicts,
        results,
        index,
        i,
        v,
    )
}

// Changes variable i, from 0, to the value v, on any tables, of any constraint file.
pub fn change(
    constraint: &[u8],
    values: &mut [u64],
    verdicts: &mut [u8],
    results: &mut [u64],
    i: usize,
    v: u64,
) -> Result<Effect, Refusal>
    ensures { record { reply = result; tables = tables_of values.new verdicts.new results.new } ≡ change_outcome constraint.now (tables_of values.old verdicts.old results.old) (changing i v None) }
{
    change_read(constraint, values, verdicts, results, None, i, v)
}

// The same through an index, any two tables.
pub fn change_through(
    constraint: &[u8],
    values: &mut [u64],
    verdicts: &mut [u8],
    results: &mut [u64],
    starts: &[u32],
    lists: &[u32],
    i: usize,
    v: u64,
) -> Result<Effect, Refusal>
    ensures { record { reply = result; tables = tables_of values.new verdicts.new results.new } ≡ change_outcome constraint.now (tables_of values.old verdicts.old results.old) (changing i v (Some (index_of starts.now lists.now))) }
{
    let index = Some(LentIndex { starts, lists });
    change_read(constraint, values, verdicts, results, index, i, v)
}
