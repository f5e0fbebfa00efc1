// Prints what `clean::clean` answers to each case of standard input, and what it leaves in the room; what it wrote is cleaned again.
// tools/clean_cases.py writes the cases and, by an evaluator of its own, the answers.
//
// A case is a line of 18 bytes with two numbers of eight hexadecimal digits, the length of a constraint file and the bytes of the room, and then the file.
#![tactic(auto)]

use clean::clean;
use std::io::{self, Read, Write};

const HEADER: usize = 18;

// Where the second number of a header stands.
const SECOND: usize = 9;

const NUMBER: usize = 8;

// Room for a file, and for one that is longer than a file may be.
const ROOM: usize = 70000;

// Cleans a file, prints the reply and the room, and answers how many bytes were written.
fn print_cleaned<W: Write>(output: &mut W, file: &[u8], room: &mut [u8]) -> io::Result<usize> {
    let reply = clean(file, room);
    reporting::print_counted(output, b"written ", reply)?;
    output.write_all(room)?;
    output.write_all(b"\n")?;
    Ok(reply.unwrap_or(0))
}

// Cleans a clean text again.
fn print_again<W: Write>(output: &mut W, text: &[u8]) -> io::Result<()> {
    if ROOM < text.len() {
        return Ok(());
    }
    let mut room = [b'.'; ROOM];
    print_cleaned(output, text, &mut room[..text.len()])?;
    Ok(())
}

// Loads the file of a case, and answers it; false where the input is too short.
fn clean_case<R: Read, W: Write>(
    input: &mut R,
    output: &mut W,
    file: &mut [u8],
    room: &mut [u8],
) -> io::Result<bool> {
    if !reporting::next_bytes(input, file)? {
        return Ok(false);
    }
    let written = print_cleaned(output, file, room)?;
    if 0 < written && written <= room.len() {
        print_again(output, &room[..written])?;
    }
    Ok(true)
}

// Answers the next case; false where none is left, or one is larger than the room for it.
fn run_case<R: Read, W: Write>(input: &mut R, output: &mut W) -> io::Result<bool> {
    let mut header = [0u8; HEADER];
    if !reporting::next_bytes(input, &mut header)? {
        return Ok(false);
    }
    let file_length = reporting::hex(&header, 0, NUMBER) as usize;
    let room_length = reporting::hex(&header, SECOND, SECOND + NUMBER) as usize;
    if ROOM < file_length || ROOM < room_length {
        return Ok(false);
    }
    let mut file = [0u8; ROOM];
    let mut room = [b'.'; ROOM];
    clean_case(
        input,
        output,
        &mut file[..file_length],
        &mut room[..room_length],
    )
}

// A proved loop has to end, and nothing says that the input does: so the turns are counted.
fn main(rt: HostRuntime) -> io::Result<()> {
    let mut input = rt.stdin();
    let mut output = rt.stdout();
    for _ in 0..u64::MAX {
        if !run_case(&mut input, &mut output)? {
            break;
        }
    }
    Ok(())
}
