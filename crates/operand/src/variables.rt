// Variables as operands.
ghost use Rattle.std.specs.Prelude.{◌≡◌, true, ◌≤◌, ◌<◌, length, get_or, drop, IfOk};
ghost use Rattle.edition.specs.Edition.{max_variables};
ghost use Rattle.text.specs.Bytes.{is_letter};
ghost use Rattle.text.specs.Scan.{token_at};
ghost use Rattle.constraint.specs.Read.{read_variable, read_operand};
ghost use Rattle.store.specs.Hash.{hash_of};
ghost use Rattle.store.specs.Names.{Searchable};
ghost use Rattle.store.specs.Tables.{variables_in};
ghost use Rattle.operand.specs.Internal.{taken_from, taken_result, TakenWithin, TakenFits, operand_result, StoredFits};

use super::{Stored, Taken};
use edition::Edition;
use refusal::{Fault, Refusal, Subject};
use store::hashing::name_at;
use store::lines::variable_head;
use store::names::find;
use store::variables::width_of;
use text::scan::token_ends;

// A variable that is used: its name stands from `at` to the end of the text and has that hash.
fn variable(
    file: &[u8],
    variables: &[u64; Edition::VARIABLES],
    n: usize,
    text: &[u8],
    at: usize,
    hash: u32,
) -> Result<Stored, Fault>
    requires { (at ≤ length text.now) × (n ≤ max_variables) × Searchable file.now variables.now n × (hash ≡ hash_of (drop at text.now)) }
    ensures { (operand_result (token_at text.now at) result ≡ read_variable (variables_in file.now variables.now n) (token_at text.now at)) × IfOk result (StoredFits (variables_in file.now variables.now n)) }
{
    if Edition::NAME_BYTES < text.len() - at {
        return Err(Fault::OverLimit);
    }
    let i = find(file, variables, n, text, at, hash).ok_or(Fault::NotDeclared)?;
    Ok(Stored {
        head: variable_head(width_of(variables, n, i)),
        body: i as u64,
    })
}

// The operand whose token starts at `at`, with a letter.
pub fn named(
    file: &[u8],
    variables: &[u64; Edition::VARIABLES],
    n: usize,
    line: &[u8],
    at: usize,
) -> Result<Taken, Refusal>
    requires { (at < length line.now) × (n ≤ max_variables) × (is_letter (get_or line.now at 0) ≡ true) × Searchable file.now variables.now n }
    ensures { (taken_result line.now result ≡ taken_from (read_operand (variables_in file.now variables.now n)) line.now at) × IfOk result (TakenWithin line.now) × IfOk result (TakenFits (variables_in file.now variables.now n)) }
{
    let name = name_at(line, at);
    let stop = name.stop;
    if !token_ends(line, stop) {
        return Err(Refusal::of(Subject::Constraint, Fault::Misspelt, at));
    }
    let operand = variable(file, variables, n, &line[..stop], at, name.hash).map_err(
        |fault| Refusal::of(Subject::Constraint, fault, at),
    )?;
    Ok(Taken { operand, stop })
}
