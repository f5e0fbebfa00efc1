// Prints what `reader::inspect` answers to each file of standard input, a line for each.
// tools/constraint_cases.py writes the files and, by a reader of its own, the answers.
//
// Before each file stands its length: eight hexadecimal digits and a line end.
#![tactic(auto)]

use reader::Counts;
use refusal::Refusal;
use std::io::{self, Read, Write};

// The bytes of a length, with its line end.
const HEADER: usize = 9;

// Room for a file, and for one that is longer than a file may be.
const ROOM: usize = 70000;

fn print_counts<W: Write>(output: &mut W, counts: Counts) -> io::Result<()> {
    reporting::print_count(output, b"variables ", counts.variables)?;
    reporting::print_count(output, b" lines ", counts.lines)
}

fn print_inspected<W: Write>(output: &mut W, reply: Result<Counts, Refusal>) -> io::Result<()> {
    match reply {
        Ok(counts) => print_counts(output, counts)?,
        Err(refusal) => reporting::print_refusal(output, refusal)?,
    }
    output.write_all(b"\n")
}

// The length of the next file; none where no file is left.
fn next_length<R: Read>(input: &mut R) -> io::Result<Option<usize>> {
    let mut header = [0u8; HEADER];
    if !reporting::next_bytes(input, &mut header)? {
        return Ok(None);
    }
    Ok(Some(reporting::hex(&header, 0, HEADER - 1) as usize))
}

// Fills `file` from the input and answers it; false where the input is too short.
fn run_file<R: Read, W: Write>(input: &mut R, output: &mut W, file: &mut [u8]) -> io::Result<bool> {
    if !reporting::next_bytes(input, file)? {
        return Ok(false);
    }
    print_inspected(output, reader::inspect(file))?;
    Ok(true)
}

// Answers the next file; false where none is left, or it is longer than the room for it.
fn run_case<R: Read, W: Write>(input: &mut R, output: &mut W) -> io::Result<bool> {
    let Some(length) = next_length(input)? else {
        return Ok(false);
    };
    if length > ROOM {
        return Ok(false);
    }
    let mut room = [0u8; ROOM];
    run_file(input, output, &mut room[..length])
}

// A proved loop has to end, and nothing says that the input does: so the turns are counted.
fn main(rt: HostRuntime) -> io::Result<()> {
    let mut input = rt.stdin();
    let mut output = rt.stdout();
    for _ in 0..u64::MAX {
        if !run_case(&mut input, &mut output)? {
            break;
        }
    }
    Ok(())
}
