// The check, into lent tables.
ghost use Rattle.std.specs.Prelude.{◌≡◌};
ghost use Rattle.judge.specs.InUse.{tables_of};
ghost use Rattle.tables.specs.Check.{check_outcome};
ghost use Rattle.tables.specs.Internal.{reply_of, CountsLines};

use answer::reading::read_answer;
use answer::rows::store_row;
use edition::Edition;
use judge::Overall;
use judge::in_use::tables_room;
use judge::lines::judge_all;
use judge::verdicts::overall;
use reader::reading::read;
use refusal::Refusal;
use store::lines::{TABLE_BODIES, TABLE_HEADS};

// The check, and how many lines there are.
pub(crate) fn check_lines(
    constraint: &[u8],
    answer: &[u8],
    values: &mut [u64],
    verdicts: &mut [u8],
    results: &mut [u64],
) -> Result<(Overall, usize), Refusal>
    ensures { (record { reply = reply_of result; tables = tables_of values.new verdicts.new results.new } ≡ check_outcome constraint.now answer.now (tables_of values.old verdicts.old results.old)) × CountsLines constraint.now result }
{
    let mut variables = [0u64; Edition::VARIABLES];
    let mut heads = [0u8; TABLE_HEADS];
    let mut bodies = [0u64; TABLE_BODIES];
    let p = read(constraint, &mut variables, &mut heads, &mut bodies)?;
    let n = p.variables;
    let m = p.lines;
    let mut row = [0u64; Edition::VARIABLES];
    read_answer(constraint, &variables, n, answer, &mut row)?;
    tables_room(n, m, values.len(), verdicts.len(), results.len())?;
    store_row(&row, n, values);
    judge_all(&heads, &bodies, m, &row[..n], verdicts, results);
    Ok((overall(&verdicts[..m]), m))
}

// Checks an answer against a constraint file, any bytes both, and fills the entries in use of the tables.
pub fn check(
    constraint: &[u8],
    answer: &[u8],
    values: &mut [u64],
    verdicts: &mut [u8],
    results: &mut [u64],
) -> Result<Overall, Refusal>
    ensures { record { reply = result; tables = tables_of values.new verdicts.new results.new } ≡ check_outcome constraint.now answer.now (tables_of values.old verdicts.old results.old) }
{
    let (overall, _) = check_lines(constraint, answer, values, verdicts, results)?;
    Ok(overall)
}
