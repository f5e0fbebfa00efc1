// The verdict on a stored line with its result, and those on all of them. The widths stand in the lines' heads: no table of variables is needed.
ghost use Rattle.std.specs.Prelude.{◌≡◌, List, ◌++◌, ℕ, ◌≤◌, ◌<◌, length, get_or, drop};
ghost use Rattle.edition.specs.Edition.{max_lines};
ghost use Rattle.constraint.specs.File.{Variable, operand_word, target as target_of};
ghost use Rattle.store.specs.Tables.{line_bodies, table_heads, table_bodies, operand_in, line_in, lines_in, HeadsFit, AllHeadsFit};
ghost use Rattle.judge.specs.Judge.{judge, verdicts_of, results_of};
ghost use Rattle.judge.specs.Fitting.{Judgeable};

use super::{Judged, Verdict};
use arithmetic::Word;
use arithmetic::rules::I1;
use evaluation::evaluate;
use store::lines::{
    ABSENT, FIRST, OUTPUT, SECOND, TABLE_BODIES, TABLE_HEADS, THIRD, body_of, head_of, head_width,
    is_variable, operator_of,
};

// The value of variable i, or 0.
fn value_of(row: &[u64], i: usize) -> u64
    ensures { result ≡ get_or row.now i 0 }
{
    if i < row.len() { row[i] } else { 0 }
}

// The operand at a slot of line k, under a row of values.
fn operand_word<'a>(
    row: &[u64],
    heads: &'a [u8; TABLE_HEADS],
    bodies: &'a [u64; TABLE_BODIES],
    k: usize,
    slot: usize,
) -> Word
    requires { (length heads.now ≡ table_heads) × (length bodies.now ≡ table_bodies) × (k < max_lines) × (slot < line_bodies) }
    ensures { (xs : List Variable) → HeadsFit xs heads.now bodies.now k → result ≡ operand_word xs row.now (operand_in heads.now bodies.now k slot) }
{
    let head = head_of(heads, k, slot);
    let body = body_of(bodies, k, slot);
    let width = head_width(head);
    if is_variable(head) {
        return Word {
            width,
            value: value_of(row, body as usize),
        };
    }
    if head == ABSENT {
        return Word { width, value: 0 };
    }
    Word { width, value: body }
}

// What the operator of line k must give.
fn target<'a>(
    row: &[u64],
    heads: &'a [u8; TABLE_HEADS],
    bodies: &'a [u64; TABLE_BODIES],
    k: usize,
) -> Word
    requires { (length heads.now ≡ table_heads) × (length bodies.now ≡ table_bodies) × (k < max_lines) }
    ensures { (xs : List Variable) → HeadsFit xs heads.now bodies.now k → result ≡ target_of xs row.now (operand_in heads.now bodies.now k 0) }
{
    if head_of(heads, k, OUTPUT) == ABSENT {
        return Word {
            width: I1,
            value: 1,
        };
    }
    operand_word(row, heads, bodies, k, OUTPUT)
}

// The verdict on line k of the table, which keeps its rules, and its result.
pub fn judge_line<'a>(
    row: &[u64],
    heads: &'a [u8; TABLE_HEADS],
    bodies: &'a [u64; TABLE_BODIES],
    k: usize,
) -> Judged
    requires { (length heads.now ≡ table_heads) × (length bodies.now ≡ table_bodies) × (k < max_lines) × Judgeable row.now heads.now bodies.now k }
    ensures { (xs : List Variable) → HeadsFit xs heads.now bodies.now k → result ≡ judge xs row.now (line_in heads.now bodies.now k) }
{
    let op = operator_of(heads, k);
    let a = operand_word(row, heads, bodies, k, FIRST);
    let b = operand_word(row, heads, bodies, k, SECOND);
    let c = operand_word(row, heads, bodies, k, THIRD);
    let goal = target(row, heads, bodies, k);
    let Some(result) = evaluate(op, goal.width, a, b, c) else {
        return Judged {
            verdict: Verdict::Disregarded,
            result: 0,
        };
    };
    let verdict = if result == goal.value {
        Verdict::Holds
    } else {
        Verdict::Violated
    };
    Judged { verdict, result }
}

// Puts the verdicts on the first m lines of the table at the front of `verdicts`, and their results at that of `results`.
pub fn judge_all<'a>(
    heads: &'a [u8; TABLE_HEADS],
    bodies: &'a [u64; TABLE_BODIES],
    m: usize,
    row: &[u64],
    verdicts: &mut [u8],
    results: &mut [u64],
)
    requires { (m ≤ max_lines) × (length heads.now ≡ table_heads) × (length bodies.now ≡ table_bodies) × (m ≤ length verdicts.old) × (m ≤ length results.old) × ((k : ℕ) → k < m → Judgeable row.now heads.now bodies.now k) }
    ensures { (xs : List Variable) → AllHeadsFit xs heads.now bodies.now m → (verdicts.new ≡ verdicts_of xs row.now (lines_in heads.now bodies.now m) ++ drop m verdicts.old) × (results.new ≡ results_of xs row.now (lines_in heads.now bodies.now m) ++ drop m results.old) }
{
    let mut i = 0;
    while i < m {
        let judged = judge_line(row, heads, bodies, i);
        verdicts[i] = judged.verdict.byte();
        results[i] = judged.result;
        i += 1;
    }
}
