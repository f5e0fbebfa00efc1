// The tokens of a clean text, put into a room; operators and operands with the space in front of them.
ghost use Rattle.std.specs.Prelude.{[], ◌∷◌, ◌++◌, ◌+◌, ◌≤◌, length};
ghost use Rattle.edition.specs.Edition.{edition10, max_variables};
ghost use Rattle.refusal.specs.SubjectWords.{ascii};
ghost use Rattle.spelling.specs.Operators.{spelling_of};
ghost use Rattle.constraint.specs.File.{name_at};
ghost use Rattle.store.specs.Tables.{word_width, head_width, variable_of, variables_in, operand_of};
ghost use Rattle.printing.specs.Room.{Put};
ghost use Rattle.clean_text.specs.Text.{type_text, declaration_text, operand_tokens, spaced};
ghost use Rattle.clean.specs.Widths.{ShortWidth};

use arithmetic::Operator;
use edition::Edition;
use printing::parts::put_part;
use printing::{put_below_hundred, put_byte, put_bytes, put_number};
use spelling::symbol_of;
use store::lines::{ABSENT, head_width, is_variable};
use store::variables::{name_length, name_start, word_width};

// `:iK`
fn put_type(width: u64, room: &mut [u8], at: usize) -> usize
    requires { ShortWidth width × (at + length (type_text width) ≤ length room.old) }
    ensures { Put (type_text width) room.old at result room.new }
{
    let digits = put_bytes(b":i", room, at);
    put_below_hundred(width, room, digits)
}

// ` name:iK`, for the variable of a word.
pub(crate) fn put_declaration(file: &[u8], word: u64, room: &mut [u8], at: usize) -> usize
    requires { ShortWidth (word_width word) × (at + length (ascii " " ++ declaration_text (variable_of file.now word)) ≤ length room.old) }
    ensures { Put (ascii " " ++ declaration_text (variable_of file.now word)) room.old at result room.new }
{
    let name = put_byte(b' ', room, at);
    let width = put_part(file, name_start(word), name_length(word), room, name);
    put_type(word_width(word), room, width)
}

// The name of variable i of n; nothing where there is no such variable.
fn put_name(
    file: &[u8],
    variables: &[u64; Edition::VARIABLES],
    n: usize,
    i: u64,
    room: &mut [u8],
    at: usize,
) -> usize
    requires { (n ≤ max_variables) × (at + length (name_at (variables_in file.now variables.now n) i) ≤ length room.old) }
    ensures { Put (name_at (variables_in file.now variables.now n) i) room.old at result room.new }
{
    let k = i as usize;
    if k < n {
        let word = variables[k];
        put_part(file, name_start(word), name_length(word), room, at)
    } else {
        at
    }
}

// The operand of a head and a body, if it is there.
pub(crate) fn put_operand(
    file: &[u8],
    variables: &[u64; Edition::VARIABLES],
    n: usize,
    head: u8,
    body: u64,
    room: &mut [u8],
    at: usize,
) -> usize
    requires { (n ≤ max_variables) × ShortWidth (head_width head) × (at + length (spaced (operand_tokens (variables_in file.now variables.now n) (operand_of head body))) ≤ length room.old) }
    ensures { Put (spaced (operand_tokens (variables_in file.now variables.now n) (operand_of head body))) room.old at result room.new }
{
    if head == ABSENT {
        return at;
    }
    let token = put_byte(b' ', room, at);
    if is_variable(head) {
        return put_name(file, variables, n, body, room, token);
    }
    let width = put_number(body, room, token);
    put_type(head_width(head), room, width)
}

pub(crate) fn put_operator(op: Operator, room: &mut [u8], at: usize) -> usize
    requires { at + length (spaced (spelling_of edition10 op ∷ [])) ≤ length room.old }
    ensures { Put (spaced (spelling_of edition10 op ∷ [])) room.old at result room.new }
{
    let token = put_byte(b' ', room, at);
    put_bytes(symbol_of(op), room, token)
}
