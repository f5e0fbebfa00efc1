// The clean spelling of a constraint file.
#![tactic(auto)]

ghost use Rattle.std.specs.Prelude.{◌≡◌, ◌≤◌, length};
ghost use Rattle.edition.specs.Edition.{max_file_bytes};
ghost use Rattle.store.specs.Tables.{store_of, StoreSized};
ghost use Rattle.store.specs.Progress.{stored_file, InTables};
ghost use Rattle.printing.specs.Room.{Put};
ghost use Rattle.printing.specs.Output.{room_for, written};
ghost use Rattle.clean_text.specs.Text.{clean_text};
ghost use Rattle.clean.specs.Clean.{clean_outcome};
ghost use Rattle.clean.specs.Widths.{ShortWidths};

use edition::Edition;
use lines::{edition_of, put_declarations, put_expectation, put_statements, put_version};
use printing::put_bytes;
use reader::reading::read;
use refusal::{Fault, Refusal, Subject};
use store::Progress;
use store::lines::{TABLE_BODIES, TABLE_HEADS};

pub mod claims;
mod lines;
mod tokens;

// The clean text of the file in the tables, at the front of the room.
fn put_clean<'a>(
    file: &[u8],
    variables: &'a [u64; Edition::VARIABLES],
    heads: &'a [u8; TABLE_HEADS],
    bodies: &'a [u64; TABLE_BODIES],
    p: Progress,
    room: &mut [u8],
) -> usize
    requires { StoreSized (store_of variables.now heads.now bodies.now) × InTables p × ShortWidths (store_of variables.now heads.now bodies.now) p × (length (clean_text (stored_file file.now (store_of variables.now heads.now bodies.now) p)) ≤ length room.old) }
    ensures { Put (clean_text (stored_file file.now (store_of variables.now heads.now bodies.now) p)) room.old 0 result room.new }
{
    let n = p.variables;
    let m = p.lines;
    let version = p.version;
    let expectation = p.expectation;
    let second = put_version(edition_of(version), room, 0);
    let third = put_expectation(expectation, room, second);
    let statements = put_declarations(file, variables, n, room, third);
    put_statements(file, variables, n, heads, bodies, m, room, statements)
}

// The same into a room that may be too short: the text is made in a room of the call's own first, so that a refusal leaves the output as it was.
fn clean_short<'a>(
    file: &[u8],
    variables: &'a [u64; Edition::VARIABLES],
    heads: &'a [u8; TABLE_HEADS],
    bodies: &'a [u64; TABLE_BODIES],
    p: Progress,
    output: &mut [u8],
) -> Result<usize, Refusal>
    requires { StoreSized (store_of variables.now heads.now bodies.now) × InTables p × ShortWidths (store_of variables.now heads.now bodies.now) p × (length (clean_text (stored_file file.now (store_of variables.now heads.now bodies.now) p)) ≤ max_file_bytes) }
    ensures { record { reply = result; output = output.new } ≡ written output.old (room_for (clean_text (stored_file file.now (store_of variables.now heads.now bodies.now) p)) (length output.old)) }
{
    let mut text = [0u8; Edition::FILE_BYTES];
    let length = put_clean(file, variables, heads, bodies, p, &mut text);
    if output.len() < length {
        return Err(Refusal::of(Subject::Output, Fault::TooShort, 0));
    }
    put_bytes(&text[..length], output, 0);
    Ok(length)
}

// Writes the clean spelling of a constraint file, any bytes, and says how long it is. The text is never longer than the file, so a room as long as the file needs no measure.
pub fn clean(constraint: &[u8], output: &mut [u8]) -> Result<usize, Refusal>
    ensures { record { reply = result; output = output.new } ≡ clean_outcome constraint.now output.old }
{
    let mut variables = [0u64; Edition::VARIABLES];
    let mut heads = [0u8; TABLE_HEADS];
    let mut bodies = [0u64; TABLE_BODIES];
    let p = read(constraint, &mut variables, &mut heads, &mut bodies)?;
    if constraint.len() <= output.len() {
        let length = put_clean(constraint, &variables, &heads, &bodies, p, output);
        return Ok(length);
    }
    clean_short(constraint, &variables, &heads, &bodies, p, output)
}
