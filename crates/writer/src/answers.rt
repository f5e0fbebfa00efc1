// The text of an answer, put into a room, and its length.
ghost use Rattle.std.specs.Prelude.{◌≡◌, ◌+◌, ◌≤◌, length};
ghost use Rattle.edition.specs.Edition.{max_variables, max_file_bytes};
ghost use Rattle.store.specs.Tables.{variable_of, variables_in};
ghost use Rattle.printing.specs.Room.{Put};
ghost use Rattle.writer.specs.Text.{setting_text, settings_text, values_line, answer_text};
ghost use Rattle.writer.specs.Bounds.{max_settings_length};

use answer::words::satisfiable;
use edition::Edition;
use printing::parts::{part, put_part};
use printing::{digit_count, put_byte, put_bytes, put_digits};
use store::variables::{name_length, name_start};

// ` name=value`, for the variable of a word.
fn put_setting(file: &[u8], word: u64, v: u64, room: &mut [u8], at: usize) -> usize
    requires { at + length (setting_text (variable_of file.now word) v) ≤ length room.old }
    ensures { Put (setting_text (variable_of file.now word) v) room.old at result room.new }
{
    let name = put_byte(b' ', room, at);
    let equals = put_part(file, name_start(word), name_length(word), room, name);
    let value = put_byte(b'=', room, equals);
    put_digits(v, room, value)
}

fn setting_length(file: &[u8], word: u64, v: u64) -> usize
    requires { length file.now ≤ max_file_bytes }
    ensures { result ≡ length (setting_text (variable_of file.now word) v) }
{
    let name = part(file, name_start(word), name_length(word));
    let first = name.start;
    let stop = name.stop;
    2 + (stop - first) + digit_count(v)
}

// The settings of n variables.
fn put_settings(
    file: &[u8],
    variables: &[u64; Edition::VARIABLES],
    n: usize,
    row: &[u64],
    room: &mut [u8],
    at: usize,
) -> usize
    requires { (n ≤ max_variables) × (length row.now ≡ n) × (at + length (settings_text (variables_in file.now variables.now n) row.now) ≤ length room.old) }
    ensures { Put (settings_text (variables_in file.now variables.now n) row.now) room.old at result room.new }
{
    let mut i = 0;
    let mut end = at;
    while i < n {
        end = put_setting(file, variables[i], row[i], room, end);
        i += 1;
    }
    end
}

fn settings_length(
    file: &[u8],
    variables: &[u64; Edition::VARIABLES],
    n: usize,
    row: &[u64],
) -> usize
    requires { (length file.now ≤ max_file_bytes) × (n ≤ max_variables) × (length row.now ≡ n) }
    ensures { (result ≡ length (settings_text (variables_in file.now variables.now n) row.now)) × (result ≤ max_settings_length) }
{
    let mut i = 0;
    let mut length = 0;
    while i < n {
        length += setting_length(file, variables[i], row[i]);
        i += 1;
    }
    length
}

// The line of the values, if there are variables.
fn put_values(
    file: &[u8],
    variables: &[u64; Edition::VARIABLES],
    n: usize,
    row: &[u64],
    room: &mut [u8],
    at: usize,
) -> usize
    requires { (n ≤ max_variables) × (length row.now ≡ n) × (at + length (values_line (variables_in file.now variables.now n) row.now) ≤ length room.old) }
    ensures { Put (values_line (variables_in file.now variables.now n) row.now) room.old at result room.new }
{
    if n == 0 {
        return at;
    }
    let first = put_byte(b'v', room, at);
    let end = put_settings(file, variables, n, row, room, first);
    put_byte(b'\n', room, end)
}

// The answer, at the front of the room.
pub(crate) fn put_answer(
    file: &[u8],
    variables: &[u64; Edition::VARIABLES],
    n: usize,
    row: &[u64],
    room: &mut [u8],
) -> usize
    requires { (n ≤ max_variables) × (length row.now ≡ n) × (length (answer_text (variables_in file.now variables.now n) row.now) ≤ length room.old) }
    ensures { Put (answer_text (variables_in file.now variables.now n) row.now) room.old 0 result room.new }
{
    let word = put_bytes(b"s ", room, 0);
    let end = put_bytes(&satisfiable(), room, word);
    let values = put_byte(b'\n', room, end);
    put_values(file, variables, n, row, room, values)
}

// The length of the line `s SATISFIABLE`, and of the `v` and the line end around the settings.
const SOLUTION_LINE: usize = 14;

const AROUND_SETTINGS: usize = 2;

pub(crate) fn answer_length(
    file: &[u8],
    variables: &[u64; Edition::VARIABLES],
    n: usize,
    row: &[u64],
) -> usize
    requires { (length file.now ≤ max_file_bytes) × (n ≤ max_variables) × (length row.now ≡ n) }
    ensures { result ≡ length (answer_text (variables_in file.now variables.now n) row.now) }
{
    if n == 0 {
        return SOLUTION_LINE;
    }
    SOLUTION_LINE + AROUND_SETTINGS + settings_length(file, variables, n, row)
}
