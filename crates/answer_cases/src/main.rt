// Prints what `answer::read` and `writer::write` answer to each case of standard input, and what they leave in the table or the room that they are lent.
// tools/answer_cases.py writes the cases and, by an evaluator of its own, the answers.
//
// A case is a line of 36 bytes with `r` or `w` and three numbers of eight hexadecimal digits, and the bytes that they count:
// of `r` a constraint file and an answer, then the entries of the table; of `w` a constraint file, the values in 16 digits each, then the bytes of the room.
#![tactic(auto)]

use reporting::cases::next_both;
use std::io::{self, Read, Write};

const HEADER: usize = 36;

// Where the three numbers of a header stand.
const FIRST: usize = 2;

const SECOND: usize = 11;

const THIRD: usize = 20;

const NUMBER: usize = 8;

// Room for a file, and for one that is longer than a file may be.
const FILE: usize = 70000;

const TABLE: usize = 300;

const ROOM: usize = 20000;

// The digits of a value, and of a table.
const VALUE: usize = 16;

const DIGITS: usize = TABLE * VALUE;

// The values that stand in digits, as many as there are.
fn parse(digits: &[u8], table: &mut [u64]) {
    let mut at = 0;
    for entry in table.iter_mut() {
        if digits.len() - at < VALUE {
            return;
        }
        let end = at + VALUE;
        *entry = reporting::hex(digits, at, end);
        at = end;
    }
}

// Loads the files of a case, and answers it; false where the input is too short.
fn read_case<R: Read, W: Write>(
    input: &mut R,
    output: &mut W,
    constraint: &mut [u8],
    answer: &mut [u8],
    table: &mut [u64],
) -> io::Result<bool> {
    if !next_both(input, constraint, answer)? {
        return Ok(false);
    }
    reporting::fill(table);
    let reply = answer::read(constraint, answer, table);
    reporting::print_counted(output, b"read ", reply)?;
    reporting::print_table(output, table)?;
    Ok(true)
}

fn write_case<R: Read, W: Write>(
    input: &mut R,
    output: &mut W,
    constraint: &mut [u8],
    digits: &mut [u8],
    table: &mut [u64],
    room: &mut [u8],
) -> io::Result<bool> {
    if !next_both(input, constraint, digits)? {
        return Ok(false);
    }
    parse(digits, table);
    let reply = writer::write(constraint, table, room);
    reporting::print_counted(output, b"written ", reply)?;
    output.write_all(room)?;
    output.write_all(b"\n")?;
    Ok(true)
}

fn run_read<R: Read, W: Write>(
    input: &mut R,
    output: &mut W,
    constraint_length: usize,
    answer_length: usize,
    entries: usize,
) -> io::Result<bool> {
    if FILE < constraint_length || FILE < answer_length || TABLE < entries {
        return Ok(false);
    }
    let mut constraint = [0u8; FILE];
    let mut answer = [0u8; FILE];
    let mut table = [0u64; TABLE];
    read_case(
        input,
        output,
        &mut constraint[..constraint_length],
        &mut answer[..answer_length],
        &mut table[..entries],
    )
}

fn run_write<R: Read, W: Write>(
    input: &mut R,
    output: &mut W,
    constraint_length: usize,
    entries: usize,
    room_length: usize,
) -> io::Result<bool> {
    if FILE < constraint_length || TABLE < entries || ROOM < room_length {
        return Ok(false);
    }
    let mut constraint = [0u8; FILE];
    let mut digits = [0u8; DIGITS];
    let mut table = [0u64; TABLE];
    let mut room = [b'.'; ROOM];
    let n = entries * VALUE;
    write_case(
        input,
        output,
        &mut constraint[..constraint_length],
        &mut digits[..n],
        &mut table[..entries],
        &mut room[..room_length],
    )
}

// Answers the next case; false where none is left, or one is larger than the room for it.
fn run_case<R: Read, W: Write>(input: &mut R, output: &mut W) -> io::Result<bool> {
    let mut header = [0u8; HEADER];
    if !reporting::next_bytes(input, &mut header)? {
        return Ok(false);
    }
    let first = reporting::hex(&header, FIRST, FIRST + NUMBER) as usize;
    let second = reporting::hex(&header, SECOND, SECOND + NUMBER) as usize;
    let third = reporting::hex(&header, THIRD, THIRD + NUMBER) as usize;
    if header[0] == b'r' {
        run_read(input, output, first, second, third)
    } else {
        run_write(input, output, first, second, third)
    }
}

// A proved loop has to end, and nothing says that the input does: so the turns are counted.
fn main(rt: HostRuntime) -> io::Result<()> {
    let mut input = rt.stdin();
    let mut output = rt.stdout();
    for _ in 0..u64::MAX {
        if !run_case(&mut input, &mut output)? {
            break;
        }
    }
    Ok(())
}
