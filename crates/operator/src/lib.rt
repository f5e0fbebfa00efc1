// An operator used by itself, with nothing of files. The register simulator uses this crate, with the types of `arithmetic`.
#![tactic(auto)]

ghost use Rattle.std.specs.Prelude.{◌≡◌};
ghost use Rattle.operator.specs.Apply.{apply_outcome};

use arithmetic::rules::{operands_fit, typed, widths_hold};
use arithmetic::{Operator, Word};
use evaluation::evaluate;
use refusal::{Fault, Refusal, Subject};

// An operator used by itself: its result has the width k, and there is none where the divisor is zero. Operands that it does not take are not looked at.
#[tactic(auto, unfolding(crate::specs::Apply::apply_outcome))]
pub fn apply(op: Operator, k: u64, a: Word, b: Word, c: Word) -> Result<Option<u64>, Refusal>
    ensures { result ≡ apply_outcome op k a b c }
{
    if !widths_hold(op, k, a, b, c) {
        return Err(Refusal::of(Subject::Call, Fault::NotAWidth, 0));
    }
    if !typed(op, k, a, b, c) {
        return Err(Refusal::of(Subject::Call, Fault::TypeRuleBroken, 0));
    }
    if !operands_fit(op, a, b, c) {
        return Err(Refusal::of(Subject::Call, Fault::ValueDoesNotFit, 0));
    }
    Ok(evaluate(op, k, a, b, c))
}
