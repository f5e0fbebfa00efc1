// The tests of a change.
ghost use Rattle.std.specs.Prelude.{◌≡◌, List, ℕ, ◌≤◌, ltb, length, option_map};
ghost use Rattle.edition.specs.Edition.{max_variables, max_lines};
ghost use Rattle.refusal.specs.Lists.{first_from};
ghost use Rattle.constraint.specs.declared.Line.{Line};
ghost use Rattle.store.specs.Tables.{variables_in};
ghost use Rattle.judge.specs.Judge.{verdict_disregarded};
ghost use Rattle.judge.specs.InUse.{tables_of};
ghost use Rattle.index.specs.Index.{lent_index};
ghost use Rattle.index.specs.Internal.{file_of};
ghost use Rattle.moves.specs.Gate.{changing, admitted};
ghost use Rattle.moves.specs.Internal.{numbers_fit};

use arithmetic::Word;
use arithmetic::rules::fits;
use edition::Edition;
use index::LentIndex;
use index::fitting::index_fits;
use judge::Verdict;
use judge::in_use::{first_unfit, tables_room};
use refusal::{Fault, Refusal, Subject};
use store::variables::width_of;

// The first byte that is no verdict.
fn first_above(verdicts: &[u8]) -> Option<usize>
    ensures { result ≡ first_from (ltb verdict_disregarded) 0 verdicts.now }
{
    let last = Verdict::Disregarded.byte();
    let mut k = 0;
    while k < verdicts.len() {
        if last < verdicts[k] {
            return Some(k);
        }
        k += 1;
    }
    None
}

// The tests of a change's own numbers, variable i of n and value v, and of those in tables that have room; there are m lines.
fn numbers_fit(
    variables: &[u64; Edition::VARIABLES],
    n: usize,
    m: usize,
    values: &[u64],
    verdicts: &[u8],
    i: usize,
    v: u64,
) -> Result<(), Refusal>
    requires { (n ≤ max_variables) × (m ≤ max_lines) × (n ≤ length values.now) × (m ≤ length verdicts.now) }
    ensures { (file : List ℕ) (ls : List Line) → length ls ≡ m → result ≡ numbers_fit (file_of (variables_in file variables.now n) ls) values.now verdicts.now (record { variable = i; value = v }) }
{
    if n <= i {
        return Err(Refusal::of(Subject::Call, Fault::NoSuchVariable, 0));
    }
    let word = Word {
        width: width_of(variables, n, i),
        value: v,
    };
    if !fits(word) {
        return Err(Refusal::of(Subject::Call, Fault::ValueDoesNotFit, 0));
    }
    if let Some(k) = first_unfit(variables, n, values) {
        return Err(Refusal::of(Subject::Values, Fault::HeldDoesNotFit, k));
    }
    if let Some(k) = first_above(&verdicts[..m]) {
        return Err(Refusal::of(Subject::Verdicts, Fault::HeldDoesNotFit, k));
    }
    Ok(())
}

// All tests of a change, through the index where there is one.
pub(crate) fn admitted(
    variables: &[u64; Edition::VARIABLES],
    n: usize,
    m: usize,
    values: &[u64],
    verdicts: &[u8],
    results: &[u64],
    index: Option<LentIndex<'_>>,
    i: usize,
    v: u64,
) -> Result<(), Refusal>
    requires { (n ≤ max_variables) × (m ≤ max_lines) }
    ensures { (file : List ℕ) (ls : List Line) → length ls ≡ m → result ≡ admitted (file_of (variables_in file variables.now n) ls) (tables_of values.now verdicts.now results.now) (changing i v (option_map lent_index index.entry)) }
{
    tables_room(n, m, values.len(), verdicts.len(), results.len())?;
    numbers_fit(variables, n, m, values, verdicts, i, v)?;
    match index {
        Some(lent) => index_fits(lent, n, m),
        None => Ok(()),
    }
}
