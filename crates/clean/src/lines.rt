// The lines of a clean text, put into a room; all but the first with the LF in front of them.
ghost use Rattle.std.specs.Prelude.{◌≡◌, [], ◌∷◌, ◌++◌, map, ℕ, ◌+◌, ◌≤◌, ◌<◌, length, unwrap_or};
ghost use Rattle.edition.specs.Edition.{edition10, max_variables, max_lines};
ghost use Rattle.refusal.specs.SubjectWords.{ascii};
ghost use Rattle.store.specs.Tables.{line_bodies, table_heads, table_bodies, variables_in, operand_of, operand_in, line_in, lines_in};
ghost use Rattle.printing.specs.Room.{Put};
ghost use Rattle.clean_text.specs.Text.{declaration_text, operand_tokens, spaced, version_line, expectation_lines, declaration_lines, statement_letter, operands_tokens, statement_line, statement_lines, fed};
ghost use Rattle.clean.specs.Front.{front_text};
ghost use Rattle.clean.specs.Widths.{ShortVariables, ShortHeads};

use super::tokens::{put_declaration, put_operand, put_operator};
use edition::Edition;
use printing::{put_byte, put_bytes, put_digits};
use store::lines::{
    ABSENT, FIRST, OUTPUT, SECOND, TABLE_BODIES, TABLE_HEADS, THIRD, body_of, head_of, operator_of,
};

// The edition that a file is read by: 1.0 where there is no version.
pub(crate) fn edition_of(version: Option<Edition>) -> Edition
    ensures { result ≡ unwrap_or version edition10 }
{
    version.unwrap_or(Edition::v1_0())
}

pub(crate) fn put_version(e: Edition, room: &mut [u8], at: usize) -> usize
    requires { at + length (version_line e) ≤ length room.old }
    ensures { Put (version_line e) room.old at result room.new }
{
    let major = put_bytes(b"v ", room, at);
    let dot = put_digits(e.major, room, major);
    let minor = put_byte(b'.', room, dot);
    put_digits(e.minor, room, minor)
}

pub(crate) fn put_expectation(expectation: Option<u8>, room: &mut [u8], at: usize) -> usize
    requires { at + length (fed (expectation_lines expectation)) ≤ length room.old }
    ensures { Put (fed (expectation_lines expectation)) room.old at result room.new }
{
    let Some(n) = expectation else {
        return at;
    };
    let number = put_bytes(b"\ne ", room, at);
    put_digits(n as u64, room, number)
}

// The declarations of n variables.
fn put_all_declared(
    file: &[u8],
    variables: &[u64; Edition::VARIABLES],
    n: usize,
    room: &mut [u8],
    at: usize,
) -> usize
    requires { (n ≤ max_variables) × ShortVariables variables.now n × (at + length (spaced (map declaration_text (variables_in file.now variables.now n))) ≤ length room.old) }
    ensures { Put (spaced (map declaration_text (variables_in file.now variables.now n))) room.old at result room.new }
{
    let mut i = 0;
    let mut end = at;
    while i < n {
        end = put_declaration(file, variables[i], room, end);
        i += 1;
    }
    end
}

// The `d` line, if there are variables.
pub(crate) fn put_declarations(
    file: &[u8],
    variables: &[u64; Edition::VARIABLES],
    n: usize,
    room: &mut [u8],
    at: usize,
) -> usize
    requires { (n ≤ max_variables) × ShortVariables variables.now n × (at + length (fed (declaration_lines (variables_in file.now variables.now n))) ≤ length room.old) }
    ensures { Put (fed (declaration_lines (variables_in file.now variables.now n))) room.old at result room.new }
{
    if n == 0 {
        return at;
    }
    let first = put_bytes(b"\nd", room, at);
    put_all_declared(file, variables, n, room, first)
}

// The letter of a line, by the head of its output.
fn letter_of(head: u8) -> u8
    ensures { (body : ℕ) → statement_letter (operand_of head body) ≡ result ∷ [] }
{
    if head == ABSENT { b'p' } else { b'c' }
}

// The operand at a slot of line k, if it is there.
fn put_slot<'a>(
    file: &[u8],
    variables: &'a [u64; Edition::VARIABLES],
    n: usize,
    heads: &'a [u8; TABLE_HEADS],
    bodies: &'a [u64; TABLE_BODIES],
    k: usize,
    slot: usize,
    room: &mut [u8],
    at: usize,
) -> usize
    requires { (n ≤ max_variables) × (length heads.now ≡ table_heads) × (length bodies.now ≡ table_bodies) × (k < max_lines) × (slot < line_bodies) × ShortHeads heads.now k × (at + length (spaced (operand_tokens (variables_in file.now variables.now n) (operand_in heads.now bodies.now k slot))) ≤ length room.old) }
    ensures { Put (spaced (operand_tokens (variables_in file.now variables.now n) (operand_in heads.now bodies.now k slot))) room.old at result room.new }
{
    let head = head_of(heads, k, slot);
    let body = body_of(bodies, k, slot);
    put_operand(file, variables, n, head, body, room, at)
}

// Line k of the table up to its operator.
fn put_front<'a>(
    file: &[u8],
    variables: &'a [u64; Edition::VARIABLES],
    n: usize,
    heads: &'a [u8; TABLE_HEADS],
    bodies: &'a [u64; TABLE_BODIES],
    k: usize,
    room: &mut [u8],
    at: usize,
) -> usize
    requires { (n ≤ max_variables) × (length heads.now ≡ table_heads) × (length bodies.now ≡ table_bodies) × (k < max_lines) × ShortHeads heads.now k × (at + length (ascii "\n" ++ front_text edition10 (variables_in file.now variables.now n) (line_in heads.now bodies.now k)) ≤ length room.old) }
    ensures { Put (ascii "\n" ++ front_text edition10 (variables_in file.now variables.now n) (line_in heads.now bodies.now k)) room.old at result room.new }
{
    let letter = put_byte(b'\n', room, at);
    let output = put_byte(letter_of(head_of(heads, k, OUTPUT)), room, letter);
    let operator = put_slot(file, variables, n, heads, bodies, k, OUTPUT, room, output);
    put_operator(operator_of(heads, k), room, operator)
}

// The operands of line k.
fn put_operands<'a>(
    file: &[u8],
    variables: &'a [u64; Edition::VARIABLES],
    n: usize,
    heads: &'a [u8; TABLE_HEADS],
    bodies: &'a [u64; TABLE_BODIES],
    k: usize,
    room: &mut [u8],
    at: usize,
) -> usize
    requires { (n ≤ max_variables) × (length heads.now ≡ table_heads) × (length bodies.now ≡ table_bodies) × (k < max_lines) × ShortHeads heads.now k × (at + length (spaced (operands_tokens (variables_in file.now variables.now n) (line_in heads.now bodies.now k).operands)) ≤ length room.old) }
    ensures { Put (spaced (operands_tokens (variables_in file.now variables.now n) (line_in heads.now bodies.now k).operands)) room.old at result room.new }
{
    let second = put_slot(file, variables, n, heads, bodies, k, FIRST, room, at);
    let third = put_slot(file, variables, n, heads, bodies, k, SECOND, room, second);
    put_slot(file, variables, n, heads, bodies, k, THIRD, room, third)
}

// Line k of the table.
fn put_statement<'a>(
    file: &[u8],
    variables: &'a [u64; Edition::VARIABLES],
    n: usize,
    heads: &'a [u8; TABLE_HEADS],
    bodies: &'a [u64; TABLE_BODIES],
    k: usize,
    room: &mut [u8],
    at: usize,
) -> usize
    requires { (n ≤ max_variables) × (length heads.now ≡ table_heads) × (length bodies.now ≡ table_bodies) × (k < max_lines) × ShortHeads heads.now k × (at + length (ascii "\n" ++ statement_line edition10 (variables_in file.now variables.now n) (line_in heads.now bodies.now k)) ≤ length room.old) }
    ensures { Put (ascii "\n" ++ statement_line edition10 (variables_in file.now variables.now n) (line_in heads.now bodies.now k)) room.old at result room.new }
{
    let operands = put_front(file, variables, n, heads, bodies, k, room, at);
    put_operands(file, variables, n, heads, bodies, k, room, operands)
}

// The first m lines of the table.
pub(crate) fn put_statements<'a>(
    file: &[u8],
    variables: &'a [u64; Edition::VARIABLES],
    n: usize,
    heads: &'a [u8; TABLE_HEADS],
    bodies: &'a [u64; TABLE_BODIES],
    m: usize,
    room: &mut [u8],
    at: usize,
) -> usize
    requires { (n ≤ max_variables) × (length heads.now ≡ table_heads) × (length bodies.now ≡ table_bodies) × (m ≤ max_lines) × ((k : ℕ) → k < m → ShortHeads heads.now k) × (at + length (fed (statement_lines edition10 (variables_in file.now variables.now n) (lines_in heads.now bodies.now m))) ≤ length room.old) }
    ensures { Put (fed (statement_lines edition10 (variables_in file.now variables.now n) (lines_in heads.now bodies.now m))) room.old at result room.new }
{
    let mut k = 0;
    let mut end = at;
    while k < m {
        end = put_statement(file, variables, n, heads, bodies, k, room, end);
        k += 1;
    }
    end
}
