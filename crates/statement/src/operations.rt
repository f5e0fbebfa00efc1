// The `c` and `p` lines, put into the table part by part.
ghost use Rattle.std.specs.Prelude.{◌≡◌, true, List, ℕ, ◌+◌, ◌≤◌, ◌<◌, length, drop, IfOk};
ghost use Rattle.edition.specs.Edition.{max_variables, max_lines};
ghost use Rattle.refusal.specs.Result.{accepted_as};
ghost use Rattle.text.specs.Lines.{tokens_from};
ghost use Rattle.text.specs.Scan.{line_at};
ghost use Rattle.constraint.specs.File.{Variable, File};
ghost use Rattle.constraint.specs.Read.{no_operands, next_operand, read_operation, read_statement};
ghost use Rattle.store.specs.Names.{Searchable};
ghost use Rattle.store.specs.Tables.{table_heads, table_bodies, variables_in, line_in, LinesKept, HeadsFit};
ghost use Rattle.operand.specs.Internal.{taken_result, TakenWithin, TakenFits};
ghost use Rattle.statement.specs.Internal.{finished, left_to_read, operand_next, InLine, part_result, PartInLine, BlankUpTo, first_slot, LineFits};

use super::Reached;
use super::typing::well_typed;
use arithmetic::rules::arity;
use constraint::Form;
use edition::Edition;
use operand::Taken;
use operand::constants::constant;
use operand::variables::named;
use refusal::{Fault, Refusal, Subject};
use spelling::operator_at;
use store::lines::{
    FIRST, OUTPUT, TABLE_BODIES, TABLE_HEADS, THIRD, clear_operands, put_body, put_head,
    put_operator,
};
use text::scan::{is_letter, next_token, no_more_tokens, spaces};

// The operand of the next token of the line from `i` on.
fn take_operand(
    file: &[u8],
    variables: &[u64; Edition::VARIABLES],
    n: usize,
    line: &[u8],
    i: usize,
) -> Result<Taken, Refusal>
    requires { (i ≤ length line.now) × (n ≤ max_variables) × Searchable file.now variables.now n }
    ensures { ((start next : ℕ) → start ≤ length line.now → taken_result line.now result ≡ next_operand (variables_in file.now variables.now n) (line_at line.now start next) (tokens_from true i (drop i line.now))) × IfOk result (TakenWithin line.now) × IfOk result (TakenFits (variables_in file.now variables.now n)) }
{
    let start = spaces(line, i);
    if start == line.len() {
        return Err(Refusal::of(Subject::Constraint, Fault::TokenCount, start));
    }
    if is_letter(line[start]) {
        named(file, variables, n, line, start)
    } else {
        constant(line, start)
    }
}

// The operator of the next token of the line from `i` on, put into line m of the table.
fn place_operator(
    line: &[u8],
    i: usize,
    heads: &mut [u8; TABLE_HEADS],
    m: usize,
) -> Result<Reached, Refusal>
    requires { (i ≤ length line.now) × (length heads.old ≡ table_heads) × (m < max_lines) }
    ensures { ((bodies : List ℕ) (f : File) (start next : ℕ) → start ≤ length line.now → (line_in heads.old bodies m).operands ≡ no_operands → part_result line.now (λ last place ts. operand_next f (line_at line.now start next) 1 last place (line_in heads.new bodies m) ts) result ≡ read_operation f (line_at line.now start next) (line_in heads.old bodies m).output (tokens_from true i (drop i line.now))) × ((bodies : List ℕ) → LinesKept heads.old bodies heads.new bodies m) × ((bodies : List ℕ) (xs : List Variable) → HeadsFit xs heads.old bodies m → HeadsFit xs heads.new bodies m) × (length heads.new ≡ table_heads) × IfOk result (PartInLine line.now 1) }
{
    let Some(token) = next_token(line, i) else {
        return Err(Refusal::of(Subject::Constraint, Fault::TokenCount, line.len()));
    };
    let start = token.start;
    let stop = token.stop;
    let Some(op) = operator_at(&line[..stop], start) else {
        return Err(Refusal::of(Subject::Constraint, Fault::UnknownOperator, start));
    };
    put_operator(heads, m, op);
    Ok(Reached {
        at: stop,
        last: arity(op),
        operator: start,
    })
}

// The operator, which stands before the first operand; before another slot there is nothing.
fn before_operand(
    line: &[u8],
    p: Reached,
    slot: usize,
    heads: &mut [u8; TABLE_HEADS],
    m: usize,
) -> Result<Reached, Refusal>
    requires { InLine line.now p × (slot ≤ p.last) × (length heads.old ≡ table_heads) × (m < max_lines) }
    ensures { ((bodies : List ℕ) (f : File) (start next : ℕ) → start ≤ length line.now → BlankUpTo slot (line_in heads.old bodies m) → part_result line.now (λ last place ts. operand_next f (line_at line.now start next) slot last place (line_in heads.new bodies m) ts) result ≡ left_to_read f (line_at line.now start next) slot p.last p.operator (line_in heads.old bodies m) (tokens_from true p.at (drop p.at line.now))) × ((bodies : List ℕ) → LinesKept heads.old bodies heads.new bodies m) × ((bodies : List ℕ) (xs : List Variable) → HeadsFit xs heads.old bodies m → HeadsFit xs heads.new bodies m) × (slot ≡ 0 → heads.new ≡ heads.old) × (length heads.new ≡ table_heads) × IfOk result (PartInLine line.now slot) }
{
    if slot == FIRST {
        place_operator(line, p.at, heads, m)
    } else {
        Ok(p)
    }
}

// The part of a line that ends with the operand of a slot, put into line m of the table.
fn place_part(
    file: &[u8],
    variables: &[u64; Edition::VARIABLES],
    n: usize,
    line: &[u8],
    p: Reached,
    slot: usize,
    heads: &mut [u8; TABLE_HEADS],
    bodies: &mut [u64; TABLE_BODIES],
    m: usize,
) -> Result<Reached, Refusal>
    requires { (n ≤ max_variables) × Searchable file.now variables.now n × InLine line.now p × (slot ≤ p.last) × (length heads.old ≡ table_heads) × (length bodies.old ≡ table_bodies) × (m < max_lines) }
    ensures { ((f : File) (start next : ℕ) → f.variables ≡ variables_in file.now variables.now n → start ≤ length line.now → BlankUpTo slot (line_in heads.old bodies.old m) → part_result line.now (λ last place ts. left_to_read f (line_at line.now start next) (slot + 1) last place (line_in heads.new bodies.new m) ts) result ≡ left_to_read f (line_at line.now start next) slot p.last p.operator (line_in heads.old bodies.old m) (tokens_from true p.at (drop p.at line.now))) × LinesKept heads.old bodies.old heads.new bodies.new m × (HeadsFit (variables_in file.now variables.now n) heads.old bodies.old m → HeadsFit (variables_in file.now variables.now n) heads.new bodies.new m) × (BlankUpTo slot (line_in heads.old bodies.old m) → BlankUpTo (slot + 1) (line_in heads.new bodies.new m)) × (length heads.new ≡ table_heads) × (length bodies.new ≡ table_bodies) × IfOk result (PartInLine line.now slot) }
{
    let q = before_operand(line, p, slot, heads, m)?;
    let taken = take_operand(file, variables, n, line, q.at)?;
    put_head(heads, m, slot, taken.operand.head);
    put_body(bodies, m, slot, taken.operand.body);
    Ok(Reached {
        at: taken.stop,
        ..q
    })
}

// Line m of the table, unless another token stands from `i` on or the type rule is broken; `at` is the operator's place.
fn finish<'a>(
    heads: &'a [u8; TABLE_HEADS],
    bodies: &'a [u64; TABLE_BODIES],
    m: usize,
    line: &[u8],
    i: usize,
    at: usize,
) -> Result<(), Refusal>
    requires { (i ≤ length line.now) × (length heads.now ≡ table_heads) × (length bodies.now ≡ table_bodies) × (m < max_lines) }
    ensures { (xs : List Variable) → HeadsFit xs heads.now bodies.now m → accepted_as (λ done. line_in heads.now bodies.now m) result ≡ finished xs (line_in heads.now bodies.now m) at (tokens_from true i (drop i line.now)) }
{
    no_more_tokens(Subject::Constraint, line, i)?;
    if well_typed(heads, bodies, m) {
        Ok(())
    } else {
        Err(Refusal::of(Subject::Constraint, Fault::TypeRuleBroken, at))
    }
}

// The first slot of a line of this form.
fn first_slot(form: Form) -> usize
    ensures { result ≡ first_slot form }
{
    match form {
        Form::WithOutput => OUTPUT,
        Form::Predicate => FIRST,
    }
}

// The `c` or `p` line from `at` to the end, put into line m of the table, behind those that are held.
pub fn statement_line(
    file: &[u8],
    variables: &[u64; Edition::VARIABLES],
    n: usize,
    line: &[u8],
    at: usize,
    form: Form,
    heads: &mut [u8; TABLE_HEADS],
    bodies: &mut [u64; TABLE_BODIES],
    m: usize,
) -> Result<(), Refusal>
    requires { (at < length line.now) × (n ≤ max_variables) × Searchable file.now variables.now n × (length heads.old ≡ table_heads) × (length bodies.old ≡ table_bodies) }
    ensures { ((f : File) (next : ℕ) → f.variables ≡ variables_in file.now variables.now n → length f.lines ≡ m → accepted_as (λ done. line_in heads.new bodies.new m) result ≡ read_statement form f (line_at line.now at next)) × LinesKept heads.old bodies.old heads.new bodies.new m × IfOk result (λ done. LineFits (variables_in file.now variables.now n) heads.new bodies.new m) × (length heads.new ≡ table_heads) × (length bodies.new ≡ table_bodies) }
{
    if Edition::LINES <= m {
        return Err(Refusal::of(Subject::Constraint, Fault::OverLimit, at));
    }
    clear_operands(heads, m);
    let mut p = Reached {
        at: at + 1,
        last: THIRD,
        operator: at,
    };
    let mut slot = first_slot(form);
    while slot <= p.last {
        p = place_part(file, variables, n, line, p, slot, heads, bodies, m)?;
        slot += 1;
    }
    finish(heads, bodies, m, line, p.at, p.operator)
}
