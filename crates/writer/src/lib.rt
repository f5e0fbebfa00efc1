// Answer files: writing the values of a lent table, where they satisfy the constraint file.
#![tactic(auto)]

ghost use Rattle.std.specs.Prelude.{◌≡◌, List, ℕ, ◌≤◌, ◌<◌, length};
ghost use Rattle.edition.specs.Edition.{max_variables, max_lines, max_file_bytes};
ghost use Rattle.constraint.specs.File.{Variable};
ghost use Rattle.store.specs.Tables.{table_heads, table_bodies, lines_in, variables_in, AllHeadsFit};
ghost use Rattle.judge.specs.Judge.{verdicts_of, overall_of};
ghost use Rattle.judge.specs.Fitting.{Judgeable};
ghost use Rattle.printing.specs.Output.{room_for, written};
ghost use Rattle.writer.specs.Write.{is_satisfied, write_outcome};
ghost use Rattle.writer.specs.Text.{answer_text};

use answers::{answer_length, put_answer};
use edition::Edition;
use judge::Verdict;
use judge::in_use::first_unfit;
use judge::lines::judge_line;
use reader::reading::read;
use refusal::{Fault, Refusal, Subject};
use store::lines::{TABLE_BODIES, TABLE_HEADS};

mod answers;
pub mod claims;

// Whether the first m lines hold under a row of values that fit.
fn satisfies<'a>(
    heads: &'a [u8; TABLE_HEADS],
    bodies: &'a [u64; TABLE_BODIES],
    m: usize,
    row: &[u64],
) -> bool
    requires { (m ≤ max_lines) × (length heads.now ≡ table_heads) × (length bodies.now ≡ table_bodies) × ((k : ℕ) → k < m → Judgeable row.now heads.now bodies.now k) }
    ensures { (xs : List Variable) → AllHeadsFit xs heads.now bodies.now m → result ≡ is_satisfied (overall_of (verdicts_of xs row.now (lines_in heads.now bodies.now m))) }
{
    let mut k = 0;
    while k < m {
        let judged = judge_line(row, heads, bodies, k);
        if judged.verdict != Verdict::Holds {
            return false;
        }
        k += 1;
    }
    true
}

// Writes the answer with a row of values, if there is room for it.
fn write_row(
    file: &[u8],
    variables: &[u64; Edition::VARIABLES],
    n: usize,
    row: &[u64],
    output: &mut [u8],
) -> Result<usize, Refusal>
    requires { (length file.now ≤ max_file_bytes) × (n ≤ max_variables) × (length row.now ≡ n) }
    ensures { record { reply = result; output = output.new } ≡ written output.old (room_for (answer_text (variables_in file.now variables.now n) row.now) (length output.old)) }
{
    let length = answer_length(file, variables, n, row);
    if output.len() < length {
        return Err(Refusal::of(Subject::Output, Fault::TooShort, 0));
    }
    put_answer(file, variables, n, row, output);
    Ok(length)
}

// Writes the answer with the values in use of a lent table, any numbers, to a constraint file, any bytes, and says how long it is.
pub fn write(constraint: &[u8], values: &[u64], output: &mut [u8]) -> Result<usize, Refusal>
    ensures { record { reply = result; output = output.new } ≡ write_outcome constraint.now values.now output.old }
{
    let mut variables = [0u64; Edition::VARIABLES];
    let mut heads = [0u8; TABLE_HEADS];
    let mut bodies = [0u64; TABLE_BODIES];
    let p = read(constraint, &mut variables, &mut heads, &mut bodies)?;
    let n = p.variables;
    if values.len() < n {
        return Err(Refusal::of(Subject::Values, Fault::TooShort, 0));
    }
    if let Some(i) = first_unfit(&variables, n, values) {
        return Err(Refusal::of(Subject::Values, Fault::HeldDoesNotFit, i));
    }
    let row = &values[..n];
    if !satisfies(&heads, &bodies, p.lines, row) {
        return Err(Refusal::of(Subject::Values, Fault::NotSatisfied, 0));
    }
    write_row(constraint, &variables, n, row, output)
}
