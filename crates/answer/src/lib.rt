// Answer files: reading one into a lent table of values.
#![tactic(auto)]

ghost use Rattle.std.specs.Prelude.{◌≡◌};
ghost use Rattle.answer.specs.Call.{read_outcome};

use edition::Edition;
use reading::read_answer;
use refusal::{Fault, Refusal, Subject};
use rows::store_row;
use store::lines::{TABLE_BODIES, TABLE_HEADS};

pub mod claims;
pub mod reading;
pub mod rows;
mod settings;
mod solutions;
pub mod words;

// The kind of a line that is not blank.
#[derive(Clone, Copy)]
pub enum AnswerLine {
    OfComment,
    OfSolution,
    OfValues,
    OfNoKind,
}

// The number of a variable, its value, and where the token stops.
#[derive(Clone, Copy)]
pub struct Setting {
    pub variable: usize,
    pub value: u64,
    pub stop: usize,
}

// Reads an answer to a constraint file, any bytes both, puts the values it sets at the front of `values`, and says how many.
pub fn read(constraint: &[u8], answer: &[u8], values: &mut [u64]) -> Result<usize, Refusal>
    ensures { record { reply = result; values = values.new } ≡ read_outcome constraint.now answer.now values.old }
{
    let mut variables = [0u64; Edition::VARIABLES];
    let mut heads = [0u8; TABLE_HEADS];
    let mut bodies = [0u64; TABLE_BODIES];
    let p = reader::reading::read(constraint, &mut variables, &mut heads, &mut bodies)?;
    let n = p.variables;
    let mut row = [0u64; Edition::VARIABLES];
    read_answer(constraint, &variables, n, answer, &mut row)?;
    if values.len() < n {
        return Err(Refusal::of(Subject::Values, Fault::TooShort, 0));
    }
    store_row(&row, n, values);
    Ok(n)
}
