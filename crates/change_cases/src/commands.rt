// The commands of a run: lines of 63 bytes with a letter, two numbers of 16 hexadecimal digits and three of eight.
//
// `c`: a change; the variable, the value, and how many values, verdicts and results are lent.
// `t`: the same through the index that is lent.
// `n`: lends an index from now on; the third and the fourth number are how many starts and lists.
// `b`: builds the file's index into what is lent.
// `s`, `l`, `v`, `w`, `u`: stores the second number at the place that the first one says, in the starts, the lists, the values, the verdicts or the results.
// `e` ends the run.
use index::index;
use moves::Effect;
use moves::runs::{change_front, change_front_through};
use refusal::Refusal;
use reporting::print_table;
use std::io::{self, Read, Write};
use verdict_printing::print_overall;

const COMMAND: usize = 63;

// Where the five numbers stand.
const FIRST: usize = 2;

const SECOND: usize = 19;

const THIRD: usize = 36;

const FOURTH: usize = 45;

const FIFTH: usize = 54;

// The digits of the last three, and of the first two.
const NUMBER: usize = 8;

const LONG_NUMBER: usize = 16;

// What a number is reduced by to be stored as an entry of 32 bits, or of a byte.
const NUMBERS: u64 = 1 << 32;

const BYTES: u64 = 1 << 8;

#[derive(Clone, Copy)]
struct Command {
    letter: u8,
    first: usize,
    second: u64,
    third: usize,
    fourth: usize,
    fifth: usize,
}

// How much of an index is lent.
#[derive(Clone, Copy)]
pub struct Lent {
    pub starts: usize,
    pub lists: usize,
}

fn read_command(line: &[u8; COMMAND]) -> Command {
    Command {
        letter: line[0],
        first: reporting::hex(line, FIRST, FIRST + LONG_NUMBER) as usize,
        second: reporting::hex(line, SECOND, SECOND + LONG_NUMBER),
        third: reporting::hex(line, THIRD, THIRD + NUMBER) as usize,
        fourth: reporting::hex(line, FOURTH, FOURTH + NUMBER) as usize,
        fifth: reporting::hex(line, FIFTH, FIFTH + NUMBER) as usize,
    }
}

// The next command; none where the run ends, or the input is too short.
fn next_command<R: Read>(input: &mut R) -> io::Result<Option<Command>> {
    let mut line = [0u8; COMMAND];
    if !reporting::next_bytes(input, &mut line)? || line[0] == b'e' {
        return Ok(None);
    }
    Ok(Some(read_command(&line)))
}

// Stores an entry where the table has such a place.
fn store<T: Copy>(table: &mut [T], at: usize, entry: T) {
    if at < table.len() {
        table[at] = entry;
    }
}

// Prints the parts of an index that are lent.
pub(crate) fn print_lent<W: Write>(
    output: &mut W,
    starts: &[u32],
    lists: &[u32],
    lent: Lent,
) -> io::Result<()> {
    let s = lent.starts.min(starts.len());
    let l = lent.lists.min(lists.len());
    print_table(output, &starts[..s])?;
    print_table(output, &lists[..l])
}

fn print_change<W: Write>(output: &mut W, reply: Result<Effect, Refusal>) -> io::Result<()> {
    match reply {
        Ok(effect) => {
            print_overall(output, effect.overall)?;
            reporting::print_count(output, b" named ", effect.named)?;
            reporting::print_count(output, b" altered ", effect.altered)?;
            reporting::print_count(output, b" bits ", effect.bits as usize)?;
        }
        Err(refusal) => reporting::print_refusal(output, refusal)?,
    }
    output.write_all(b"\n")
}

fn change_plainly<W: Write>(
    output: &mut W,
    c: Command,
    constraint: &[u8],
    values: &mut [u64],
    verdicts: &mut [u8],
    results: &mut [u64],
) -> io::Result<()> {
    let reply = change_front(
        constraint, values, c.third, verdicts, c.fourth, results, c.fifth, c.first, c.second,
    );
    print_change(output, reply)
}

fn change_through_lent<W: Write>(
    output: &mut W,
    c: Command,
    constraint: &[u8],
    values: &mut [u64],
    verdicts: &mut [u8],
    results: &mut [u64],
    starts: &[u32],
    lists: &[u32],
    lent: Lent,
) -> io::Result<()> {
    let s = lent.starts.min(starts.len());
    let l = lent.lists.min(lists.len());
    let reply = change_front_through(
        constraint,
        values,
        c.third,
        verdicts,
        c.fourth,
        results,
        c.fifth,
        &starts[..s],
        &lists[..l],
        c.first,
        c.second,
    );
    print_change(output, reply)
}

fn build<W: Write>(
    output: &mut W,
    constraint: &[u8],
    starts: &mut [u32],
    lists: &mut [u32],
    lent: Lent,
) -> io::Result<()> {
    let s = lent.starts.min(starts.len());
    let l = lent.lists.min(lists.len());
    let reply = index(constraint, &mut starts[..s], &mut lists[..l]);
    reporting::print_counted(output, b"indexed ", reply)?;
    print_lent(output, starts, lists, lent)
}

// Does what a command says; what is lent behind it.
fn obey<W: Write>(
    output: &mut W,
    c: Command,
    constraint: &[u8],
    values: &mut [u64],
    verdicts: &mut [u8],
    results: &mut [u64],
    starts: &mut [u32],
    lists: &mut [u32],
    lent: Lent,
) -> io::Result<Lent> {
    let letter = c.letter;
    match letter {
        b'c' => change_plainly(output, c, constraint, values, verdicts, results)?,
        b't' => change_through_lent(
            output, c, constraint, values, verdicts, results, starts, lists, lent,
        )?,
        b'b' => build(output, constraint, starts, lists, lent)?,
        b's' => store(starts, c.first, (c.second % NUMBERS) as u32),
        b'l' => store(lists, c.first, (c.second % NUMBERS) as u32),
        b'v' => store(values, c.first, c.second),
        b'w' => store(verdicts, c.first, (c.second % BYTES) as u8),
        b'u' => store(results, c.first, c.second),
        b'n' => {
            return Ok(Lent {
                starts: c.third,
                lists: c.fourth,
            });
        }
        _ => {}
    }
    Ok(lent)
}

// Obeys the commands up to the run's end; what is lent then.
// A proved loop has to end, and nothing says that the input does: so the turns are counted.
pub(crate) fn obey_all<R: Read, W: Write>(
    input: &mut R,
    output: &mut W,
    constraint: &[u8],
    values: &mut [u64],
    verdicts: &mut [u8],
    results: &mut [u64],
    starts: &mut [u32],
    lists: &mut [u32],
) -> io::Result<Lent> {
    let mut lent = Lent {
        starts: 0,
        lists: 0,
    };
    for _ in 0..u64::MAX {
        let Some(c) = next_command(input)? else {
            break;
        };
        lent = obey(
            output, c, constraint, values, verdicts, results, starts, lists, lent,
        )?;
    }
    Ok(lent)
}
