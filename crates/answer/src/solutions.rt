// The `s` line.
ghost use Rattle.std.specs.Prelude.{◌≡◌, true, List, ℕ, ◌<◌, ◌≤◌, length, drop, Option};
ghost use Rattle.refusal.specs.Result.{accepted_as};
ghost use Rattle.text.specs.Scan.{line_at};
ghost use Rattle.answer.specs.Read.{settings_of, solution_of, read_solution};

use super::words::{satisfiable, unknown, unsatisfiable};
use refusal::{Fault, Refusal, Subject};
use text::compare::is_word;
use text::scan::{next_token, no_more_tokens};

// Whether the solution word from `at` to the end is SATISFIABLE, or which fault it is.
fn solution_at(text: &[u8], at: usize) -> Result<(), Fault>
    requires { at ≤ length text.now }
    ensures { result ≡ solution_of (drop at text.now) }
{
    if is_word(text, at, &satisfiable()) {
        return Ok(());
    }
    if is_word(text, at, &unsatisfiable()) | is_word(text, at, &unknown()) {
        return Err(Fault::NotSatisfiable);
    }
    Err(Fault::NoSolutionWord)
}

// The `s` line from `at` to the end: it is read then.
pub(crate) fn solution_line(line: &[u8], at: usize, solved: bool) -> Result<bool, Refusal>
    requires { at < length line.now }
    ensures { (vs : List (Option ℕ)) (next : ℕ) → accepted_as (λ s. settings_of s vs) result ≡ read_solution (settings_of solved vs) (line_at line.now at next) }
{
    if solved {
        return Err(Refusal::of(Subject::Answer, Fault::MisplacedLine, at));
    }
    let next = at + 1;
    let Some(word) = next_token(line, next) else {
        return Err(Refusal::of(Subject::Answer, Fault::TokenCount, line.len()));
    };
    let start = word.start;
    let stop = word.stop;
    solution_at(&line[..stop], start).map_err(|fault| Refusal::of(Subject::Answer, fault, start))?;
    no_more_tokens(Subject::Answer, line, stop)?;
    Ok(true)
}
