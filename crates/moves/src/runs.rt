// Changes on the first entries of the tables, as callers make them.
ghost use Rattle.std.specs.Prelude.{◌≡◌, None, Some, option_map};
ghost use Rattle.judge.specs.InUse.{tables_of};
ghost use Rattle.index.specs.Index.{index_of, lent_index};
ghost use Rattle.moves.specs.Gate.{changing};
ghost use Rattle.moves.specs.Change.{change_outcome};
ghost use Rattle.moves.specs.Run.{turn_outcome};

use super::Effect;
use super::change::change_read;
use index::LentIndex;
use refusal::Refusal;

// Lends the first p values, q verdicts and s results, or as many as there are.
fn change_lent(
    constraint: &[u8],
    values: &mut [u64],
    p: usize,
    verdicts: &mut [u8],
    q: usize,
    results: &mut [u64],
    s: usize,
    index: Option<LentIndex<'_>>,
    i: usize,
    v: u64,
) -> Result<Effect, Refusal>
    ensures { record { reply = result; tables = tables_of values.new verdicts.new results.new } ≡ turn_outcome change_outcome constraint.now (tables_of values.old verdicts.old results.old) (record { call = changing i v (option_map lent_index index.entry); lent = record { values = p; verdicts = q; results = s } }) }
{
    let k = p.min(values.len());
    let l = q.min(verdicts.len());
    let m = s.min(results.len());
    change_read(
        constraint,
        &mut values[..k],
        &mut verdicts[..l],
        &mut results[..m],
        index,
        i,
        v,
    )
}

// A change on the first p values, q verdicts and s results.
pub fn change_front(
    constraint: &[u8],
    values: &mut [u64],
    p: usize,
    verdicts: &mut [u8],
    q: usize,
    results: &mut [u64],
    s: usize,
    i: usize,
    v: u64,
) -> Result<Effect, Refusal>
    ensures { record { reply = result; tables = tables_of values.new verdicts.new results.new } ≡ turn_outcome change_outcome constraint.now (tables_of values.old verdicts.old results.old) (record { call = changing i v None; lent = record { values = p; verdicts = q; results = s } }) }
{
    change_lent(constraint, values, p, verdicts, q, results, s, None, i, v)
}

// The same through an index.
pub fn change_front_through(
    constraint: &[u8],
    values: &mut [u64],
    p: usize,
    verdicts: &mut [u8],
    q: usize,
    results: &mut [u64],
    s: usize,
    starts: &[u32],
    lists: &[u32],
    i: usize,
    v: u64,
) -> Result<Effect, Refusal>
    ensures { record { reply = result; tables = tables_of values.new verdicts.new results.new } ≡ turn_outcome change_outcome constraint.now (tables_of values.old verdicts.old results.old) (record { call = changing i v (Some (index_of starts.now lists.now)); lent = record { values = p; verdicts = q; results = s } }) }
{
    let index = Some(LentIndex { starts, lists });
    change_lent(constraint, values, p, verdicts, q, results, s, index, i, v)
}
