// Constants, `digits:iK`.
ghost use Rattle.std.specs.Prelude.{◌≡◌, List, ◌≤◌, length, IfOk};
ghost use Rattle.constraint.specs.File.{Variable};
ghost use Rattle.constraint.specs.Read.{read_constant};
ghost use Rattle.operand.specs.Internal.{constant_of, taken_from, taken_result, TakenWithin, TakenFits};

use super::{Stored, Taken};
use arithmetic::rules::reduced;
use refusal::{Fault, Refusal, Subject};
use store::lines::constant_head;
use text::numbers::{MAX_DIGITS, digits_at, type_at, within_digits};
use text::{NumberError, TypeError};

// The constant with this number and this width.
fn constant_of(
    number: Result<u64, NumberError>,
    width: Result<u64, TypeError>,
) -> Result<Stored, Fault>
    ensures { result ≡ constant_of number width }
{
    match (number, width) {
        (Err(NumberError::NotANumber), _) => Err(Fault::Misspelt),
        (_, Err(TypeError::NoType)) => Err(Fault::Misspelt),
        (_, Err(TypeError::NoWidth)) => Err(Fault::NotAWidth),
        (Err(NumberError::TooBig), Ok(_)) => Err(Fault::NumberTooLarge),
        (Ok(v), Ok(k)) => Ok(Stored {
            head: constant_head(k),
            body: reduced(k, v),
        }),
    }
}

// The constant whose token starts at `at`.
pub fn constant(line: &[u8], at: usize) -> Result<Taken, Refusal>
    requires { at ≤ length line.now }
    ensures { (taken_result line.now result ≡ taken_from read_constant line.now at) × IfOk result (TakenWithin line.now) × ((xs : List Variable) → IfOk result (TakenFits xs)) }
{
    let digits = digits_at(line, at);
    let colon = digits.stop;
    let number = within_digits(digits.number, colon - at, MAX_DIGITS);
    let found = type_at(line, colon);
    let operand = constant_of(number, found.width).map_err(|fault| Refusal::of(
        Subject::Constraint,
        fault,
        at,
    ))?;
    Ok(Taken {
        operand,
        stop: found.stop,
    })
}
