// The `d` lines.
ghost use Rattle.std.specs.Prelude.{◌≡◌, true, List, ℕ, ◌+◌, ◌<◌, ◌≤◌, length, take, drop, IfOk};
ghost use Rattle.edition.specs.declared.Edition.{Edition as TheEdition};
ghost use Rattle.edition.specs.Edition.{max_file_bytes, max_variables};
ghost use Rattle.refusal.specs.Result.{accepted_as};
ghost use Rattle.text.specs.Lines.{tokens_from};
ghost use Rattle.text.specs.Scan.{line_at, token_from};
ghost use Rattle.constraint.specs.File.{File, with_variables};
ghost use Rattle.constraint.specs.Read.{declare_all, read_declarations};
ghost use Rattle.store.specs.Names.{Searchable};
ghost use Rattle.store.specs.Tables.{variables_in, store_of};
ghost use Rattle.store.specs.Progress.{stored_file, advanced, added_result, InTables, AddsVariables};
ghost use Rattle.declaration.specs.Internal.{declared_behind, PutHolds, DeclaredHolds};

use super::declaring::declare;
use edition::Edition;
use refusal::{Fault, Refusal, Subject};
use store::hashing::name_at;
use store::names::add;
use store::{Part, Progress};
use text::numbers::type_at;
use text::scan::{is_letter, spaces};

// The declaration whose token starts at `at` in the line that stops at `stop`, put behind the n variables that are held: where the token stops.
fn declare_next(
    file: &[u8],
    stop: usize,
    at: usize,
    variables: &mut [u64; Edition::VARIABLES],
    n: usize,
) -> Result<usize, Refusal>
    requires { (at < stop) × (stop ≤ length file.now) × (length file.now ≤ max_file_bytes) × (n ≤ max_variables) × (length variables.old ≡ max_variables) × Searchable file.now variables.old n }
    ensures { ((e : TheEdition) → accepted_as (λ end. variables_in file.now variables.new (n + 1)) result ≡ declared_behind e (variables_in file.now variables.old n) (token_from (take stop file.now) at)) × IfOk result (PutHolds file.now stop at variables.new n) × (length variables.new ≡ max_variables) }
{
    let line = &file[..stop];
    if !is_letter(line[at]) {
        return Err(Refusal::of(Subject::Constraint, Fault::Misspelt, at));
    }
    let name = name_at(line, at);
    let colon = name.stop;
    let hash = name.hash;
    let found = type_at(line, colon);
    let end = found.stop;
    let width = declare(file, variables, n, &line[..colon], at, hash, found.width).map_err(
        |fault| Refusal::of(Subject::Constraint, fault, at),
    )?;
    add(variables, n, at, colon - at, width, hash);
    Ok(end)
}

// The declarations of the line that stops at `stop`, from `at` on, put behind the n variables that are held: how many variables there are then.
fn declare_all(
    file: &[u8],
    stop: usize,
    at: usize,
    variables: &mut [u64; Edition::VARIABLES],
    n: usize,
) -> Result<usize, Refusal>
    requires { (at ≤ stop) × (stop ≤ length file.now) × (length file.now ≤ max_file_bytes) × (n ≤ max_variables) × (length variables.old ≡ max_variables) × Searchable file.now variables.old n }
    ensures { ((f : File) → f.variables ≡ variables_in file.now variables.old n → accepted_as (λ k. with_variables f (variables_in file.now variables.new k)) result ≡ declare_all f (tokens_from true at (drop at (take stop file.now)))) × (length variables.new ≡ max_variables) × IfOk result (DeclaredHolds file.now variables.new) }
{
    let mut k = n;
    let mut i = at;
    while i < stop {
        let start = spaces(&file[..stop], i);
        if start == stop {
            return Ok(k);
        }
        i = declare_next(file, stop, start, variables, k)?;
        k += 1;
    }
    Ok(k)
}

// The `d` line that stops at `stop`, from `at` on.
pub fn declaration_line(
    file: &[u8],
    stop: usize,
    at: usize,
    variables: &mut [u64; Edition::VARIABLES],
    p: Progress,
) -> Result<Part, Refusal>
    requires { (at < stop) × (stop ≤ length file.now) × (length file.now ≤ max_file_bytes) × InTables p × (length variables.old ≡ max_variables) × Searchable file.now variables.old p.variables }
    ensures { ((heads bodies : List ℕ) (next : ℕ) → added_result file.now (store_of variables.new heads bodies) p result ≡ read_declarations (stored_file file.now (store_of variables.old heads bodies) p) (line_at (take stop file.now) at next)) × (length variables.new ≡ max_variables) × IfOk result (AddsVariables p) × IfOk (advanced p result) (λ q. Searchable file.now variables.new q.variables) }
{
    let m = p.lines;
    if m != 0 {
        return Err(Refusal::of(Subject::Constraint, Fault::MisplacedLine, at));
    }
    let next = at + 1;
    if spaces(&file[..stop], next) == stop {
        return Err(Refusal::of(Subject::Constraint, Fault::TokenCount, stop));
    }
    let n = declare_all(file, stop, next, variables, p.variables)?;
    Ok(Part::Variables(n))
}
