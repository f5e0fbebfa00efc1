// Tests of lent tables: their room, and the values in use.
ghost use Rattle.std.specs.Prelude.{◌≡◌, List, ℕ, ◌≤◌, length, take};
ghost use Rattle.edition.specs.Edition.{max_variables};
ghost use Rattle.constraint.specs.File.{File};
ghost use Rattle.store.specs.Tables.{variables_in};
ghost use Rattle.judge.specs.InUse.{first_unfit, tables_room};

use arithmetic::Word;
use arithmetic::rules::fits;
use edition::Edition;
use refusal::{Fault, Refusal, Subject};
use store::variables::width_of;

// Whether tables of these lengths have room for n variables and m lines.
pub fn tables_room(
    n: usize,
    m: usize,
    values: usize,
    verdicts: usize,
    results: usize,
) -> Result<(), Refusal>
    ensures { (f : File) → length f.variables ≡ n → length f.lines ≡ m → result ≡ tables_room f (record { values = values; verdicts = verdicts; results = results }) }
{
    if values < n {
        return Err(Refusal::of(Subject::Values, Fault::TooShort, 0));
    }
    if verdicts < m {
        return Err(Refusal::of(Subject::Verdicts, Fault::TooShort, 0));
    }
    if results < m {
        return Err(Refusal::of(Subject::Results, Fault::TooShort, 0));
    }
    Ok(())
}

// The first of the n values that does not fit its variable.
pub fn first_unfit(variables: &[u64; Edition::VARIABLES], n: usize, values: &[u64]) -> Option<usize>
    requires { (n ≤ max_variables) × (n ≤ length values.now) }
    ensures { (file : List ℕ) → result ≡ first_unfit (variables_in file variables.now n) (take n values.now) }
{
    let mut i = 0;
    while i < n {
        if fits(Word {
            width: width_of(variables, n, i),
            value: values[i],
        }) {
            i += 1;
        } else {
            return Some(i);
        }
    }
    None
}
