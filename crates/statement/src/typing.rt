// The type rule of a line in the table.
ghost use Rattle.std.specs.Prelude.{◌≡◌, List, ℕ, ◌<◌, length};
ghost use Rattle.edition.specs.Edition.{max_lines};
ghost use Rattle.arithmetic.specs.Rules.{operands_taken};
ghost use Rattle.constraint.specs.File.{Variable};
ghost use Rattle.constraint.specs.TypeRules.{rule_word, result_width, constant_rule, is_predicate, predicate_rule, well_typed};
ghost use Rattle.store.specs.Tables.{table_heads, table_bodies, operand_of, line_in, HeadFits, HeadsFit};

use arithmetic::rules::{I1, typed};
use arithmetic::{Operator, Word};
use store::lines::{
    ABSENT, FIRST, OUTPUT, SECOND, TABLE_BODIES, TABLE_HEADS, THIRD, body_of, head_of, head_width,
    is_constant, operator_of,
};

// An operand as the rules see it: no variable's value matters to them.
fn rule_word(head: u8, body: u64) -> Word
    ensures { (xs : List Variable) → HeadFits xs head body → result ≡ rule_word xs (operand_of head body) }
{
    let width = head_width(head);
    if is_constant(head) {
        Word { width, value: body }
    } else {
        Word { width, value: 0 }
    }
}

fn result_width(head: u8) -> u64
    ensures { (xs : List Variable) (body : ℕ) → HeadFits xs head body → result ≡ result_width xs (operand_of head body) }
{
    if head == ABSENT { I1 } else { head_width(head) }
}

// The last two operands of `extr` are constants.
fn constants_hold(op: Operator, b: u8, c: u8) -> bool
    ensures { (x y : ℕ) → result ≡ constant_rule op (operand_of b x) (operand_of c y) }
{
    match op {
        Operator::Extr => is_constant(b) & is_constant(c),
        Operator::Combine(_) => true,
        Operator::Not => true,
        Operator::Implies => true,
        Operator::Compare(_) => true,
        Operator::Ite => true,
        Operator::Compute(_) => true,
        Operator::Divide(_) => true,
        Operator::Move(_) => true,
        Operator::Trun => true,
        Operator::Extend(_) => true,
        Operator::Conc => true,
    }
}

// Whether an operator may stand in a `p` line.
fn is_predicate(op: Operator, a: Word, b: Word, c: Word) -> bool
    ensures { result ≡ is_predicate op (operands_taken op a b c) }
{
    let x = a.width == I1;
    let y = b.width == I1;
    let z = c.width == I1;
    match op {
        Operator::Combine(_) => x & y,
        Operator::Not => x,
        Operator::Implies => true,
        Operator::Compare(_) => true,
        Operator::Ite => x & y & z,
        Operator::Compute(_) => false,
        Operator::Divide(_) => false,
        Operator::Move(_) => false,
        Operator::Trun => false,
        Operator::Extend(_) => false,
        Operator::Conc => false,
        Operator::Extr => false,
    }
}

fn predicate_holds(output: u8, op: Operator, a: Word, b: Word, c: Word) -> bool
    ensures { (body : ℕ) → result ≡ predicate_rule (operand_of output body) op (operands_taken op a b c) }
{
    if output == ABSENT {
        is_predicate(op, a, b, c)
    } else {
        true
    }
}

// Whether line m keeps its type rule.
pub(crate) fn well_typed<'a>(
    heads: &'a [u8; TABLE_HEADS],
    bodies: &'a [u64; TABLE_BODIES],
    m: usize,
) -> bool
    requires { (length heads.now ≡ table_heads) × (length bodies.now ≡ table_bodies) × (m < max_lines) }
    ensures { (xs : List Variable) → HeadsFit xs heads.now bodies.now m → result ≡ well_typed xs (line_in heads.now bodies.now m) }
{
    let op = operator_of(heads, m);
    let output = head_of(heads, m, OUTPUT);
    let first = head_of(heads, m, FIRST);
    let second = head_of(heads, m, SECOND);
    let third = head_of(heads, m, THIRD);
    let a = rule_word(first, body_of(bodies, m, FIRST));
    let b = rule_word(second, body_of(bodies, m, SECOND));
    let c = rule_word(third, body_of(bodies, m, THIRD));
    let k = result_width(output);
    typed(op, k, a, b, c) & constants_hold(op, second, third) & predicate_holds(output, op, a, b, c)
}
