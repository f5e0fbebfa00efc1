// Verdicts and results made anew: of the lines that name a variable, or of those in a list.
ghost use Rattle.std.specs.Prelude.{◌≡◌, true, List, ℕ, ◌≤◌, ◌<◌, length, get_or, option_map};
ghost use Rattle.edition.specs.Edition.{max_lines};
ghost use Rattle.constraint.specs.File.{Variable};
ghost use Rattle.store.specs.Tables.{table_heads, table_bodies, line_in, lines_in, HeadsFit, AllHeadsFit};
ghost use Rattle.judge.specs.Judge.{verdict_byte};
ghost use Rattle.judge.specs.Fitting.{Judgeable};
ghost use Rattle.index.specs.Select.{naming, names as namesIn};
ghost use Rattle.index.specs.Index.{lent_index};
ghost use Rattle.index.specs.AnyIndex.{numbered, concerned, list_fits};
ghost use Rattle.index.specs.Internal.{file_of};
ghost use Rattle.moves.specs.Internal.{columns_of, fresh_columns, judged_in, set_line, differs, RenewedIf, Renewed, IndexListFitting};

use super::Renewal;
use index::LentIndex;
use index::naming::names;
use judge::lines::judge_line;
use store::lines::{TABLE_BODIES, TABLE_HEADS};

// 0 where two verdicts are the same, else 1.
fn differ(a: u8, b: u8) -> usize
    ensures { result ≡ differs a b }
{
    if a == b { 0 } else { 1 }
}

// Renews the verdict and the result of line k of the table, which keeps its rules: 1 where the verdict became different.
fn renew_line<'a>(
    row: &[u64],
    heads: &'a [u8; TABLE_HEADS],
    bodies: &'a [u64; TABLE_BODIES],
    verdicts: &mut [u8],
    results: &mut [u64],
    k: usize,
) -> usize
    requires { (k < length verdicts.old) × (k < length results.old) × (length heads.now ≡ table_heads) × (length bodies.now ≡ table_bodies) × (k < max_lines) × Judgeable row.now heads.now bodies.now k }
    ensures { (xs : List Variable) → HeadsFit xs heads.now bodies.now k → let fresh = judged_in xs row.now heads.now bodies.now k in (result ≡ differs (get_or verdicts.old k 0) (verdict_byte fresh.verdict)) × (columns_of verdicts.new results.new ≡ set_line (columns_of verdicts.old results.old) k fresh) }
{
    let old = verdicts[k];
    let judged = judge_line(row, heads, bodies, k);
    let new = judged.verdict.byte();
    verdicts[k] = new;
    results[k] = judged.result;
    differ(old, new)
}

// Renews them where the line names variable i.
fn renew_named<'a>(
    row: &[u64],
    heads: &'a [u8; TABLE_HEADS],
    bodies: &'a [u64; TABLE_BODIES],
    verdicts: &mut [u8],
    results: &mut [u64],
    k: usize,
    i: usize,
) -> Renewal
    requires { (k < length verdicts.old) × (k < length results.old) × (length heads.now ≡ table_heads) × (length bodies.now ≡ table_bodies) × (k < max_lines) × Judgeable row.now heads.now bodies.now k }
    ensures { (xs : List Variable) → HeadsFit xs heads.now bodies.now k → RenewedIf (namesIn i (line_in heads.now bodies.now k)) (judged_in xs row.now heads.now bodies.now k) k (columns_of verdicts.old results.old) (columns_of verdicts.new results.new) result }
{
    if names(i, heads, bodies, k) {
        return Renewal {
            named: 1,
            altered: renew_line(row, heads, bodies, verdicts, results, k),
        };
    }
    Renewal {
        named: 0,
        altered: 0,
    }
}

// Renews those of the lines that name variable i.
fn renew<'a>(
    heads: &'a [u8; TABLE_HEADS],
    bodies: &'a [u64; TABLE_BODIES],
    m: usize,
    row: &[u64],
    verdicts: &mut [u8],
    results: &mut [u64],
    i: usize,
) -> Renewal
    requires { (m ≤ max_lines) × (length heads.now ≡ table_heads) × (length bodies.now ≡ table_bodies) × (m ≤ length verdicts.old) × (m ≤ length results.old) × ((k : ℕ) → k < m → Judgeable row.now heads.now bodies.now k) }
    ensures { (xs : List Variable) → AllHeadsFit xs heads.now bodies.now m → Renewed (naming (file_of xs (lines_in heads.now bodies.now m)) i) (fresh_columns (file_of xs (lines_in heads.now bodies.now m)) row.now) m (columns_of verdicts.old results.old) (columns_of verdicts.new results.new) result }
{
    let mut named = 0;
    let mut altered = 0;
    let mut k = 0;
    while k < m {
        let one = renew_named(row, heads, bodies, verdicts, results, k, i);
        named += one.named;
        altered += one.altered;
        k += 1;
    }
    Renewal { named, altered }
}

// Renews those of the lines in a list that fits: their numbers from 1.
fn renew_listed<'a>(
    heads: &'a [u8; TABLE_HEADS],
    bodies: &'a [u64; TABLE_BODIES],
    m: usize,
    row: &[u64],
    verdicts: &mut [u8],
    results: &mut [u64],
    list: &[u32],
) -> Renewal
    requires { (m ≤ max_lines) × (length heads.now ≡ table_heads) × (length bodies.now ≡ table_bodies) × (m ≤ length verdicts.old) × (m ≤ length results.old) × (list_fits m list.now ≡ true) × ((k : ℕ) → k < m → Judgeable row.now heads.now bodies.now k) }
    ensures { (xs : List Variable) → AllHeadsFit xs heads.now bodies.now m → Renewed (numbered list.now 1 (lines_in heads.now bodies.now m)) (fresh_columns (file_of xs (lines_in heads.now bodies.now m)) row.now) m (columns_of verdicts.old results.old) (columns_of verdicts.new results.new) result }
{
    let mut altered = 0;
    let mut k = 0;
    while k < list.len() {
        let line = list[k] as usize - 1;
        altered += renew_line(row, heads, bodies, verdicts, results, line);
        k += 1;
    }
    Renewal {
        named: list.len(),
        altered,
    }
}

// Renews those of the lines that a change of variable i concerns: those that the index lists where there is one, else those that name i.
pub(crate) fn renew_concerned<'a>(
    heads: &'a [u8; TABLE_HEADS],
    bodies: &'a [u64; TABLE_BODIES],
    m: usize,
    row: &[u64],
    verdicts: &mut [u8],
    results: &mut [u64],
    index: Option<LentIndex<'_>>,
    i: usize,
) -> Renewal
    requires { (m ≤ max_lines) × (length heads.now ≡ table_heads) × (length bodies.now ≡ table_bodies) × (m ≤ length verdicts.old) × (m ≤ length results.old) × IndexListFitting m (option_map lent_index index) i × ((k : ℕ) → k < m → Judgeable row.now heads.now bodies.now k) }
    ensures { (xs : List Variable) → AllHeadsFit xs heads.now bodies.now m → Renewed (concerned (file_of xs (lines_in heads.now bodies.now m)) (option_map lent_index index.entry) i) (fresh_columns (file_of xs (lines_in heads.now bodies.now m)) row.now) m (columns_of verdicts.old results.old) (columns_of verdicts.new results.new) result }
{
    match index {
        Some(LentIndex { starts, lists }) => {
            let from = starts[i] as usize;
            let to = starts[i + 1] as usize;
            let list = &lists[from..to];
            renew_listed(heads, bodies, m, row, verdicts, results, list)
        }
        None => renew(heads, bodies, m, row, verdicts, results, i),
    }
}
