// Replays runs of changes from standard input: prints what the check answers, what each command answers, and what is left in the tables.
// tools/change_cases.py writes the runs and, by a model of its own, the answers.
//
// A run is a line of 47 bytes with `r` and five numbers of eight hexadecimal digits, and the bytes of two files:
// the numbers are the lengths of the constraint file and of the answer, and the entries of the tables of values, verdicts and results.
// Then commands, up to one that ends the run: commands.rt has them.
#![tactic(auto)]

ghost use Rattle.reporting.specs.CaseRooms.{Fitted};

use commands::{obey_all, print_lent};
use reporting::cases::{FILE, NO_VERDICT, RESULTS, Sizes, VALUES, VERDICTS, next_both, next_case};
use std::io::{self, Read, Write};
use tables::check::check;
use verdict_printing::print_reply;

mod commands;

// The entries of the two tables of an index.
const STARTS: usize = 300;

const LISTS: usize = 4200;

// What stands in them before the first use: each entry is this much more than the one before it.
const STEP: u32 = 10007;

// Fills a table, so that each entry is told from the others.
fn fill_numbers(table: &mut [u32]) {
    reporting::fill_by(table, STEP, |v| v.saturating_add(STEP));
}

// Fills the tables, and prints what the check answers.
fn begin<W: Write>(
    output: &mut W,
    constraint: &[u8],
    answer: &[u8],
    values: &mut [u64],
    verdicts: &mut [u8],
    results: &mut [u64],
) -> io::Result<()> {
    reporting::fill(values);
    reporting::fill_down(results);
    print_reply(output, check(constraint, answer, values, verdicts, results))
}

// The index is printed only where a part of it is lent.
fn replay<R: Read, W: Write>(
    input: &mut R,
    output: &mut W,
    constraint: &[u8],
    answer: &[u8],
    values: &mut [u64],
    verdicts: &mut [u8],
    results: &mut [u64],
) -> io::Result<()> {
    let mut starts = [0u32; STARTS];
    let mut lists = [0u32; LISTS];
    fill_numbers(&mut starts);
    fill_numbers(&mut lists);
    begin(output, constraint, answer, values, verdicts, results)?;
    let lent = obey_all(
        input,
        output,
        constraint,
        values,
        verdicts,
        results,
        &mut starts,
        &mut lists,
    )?;
    reporting::print_table(output, values)?;
    reporting::print_table(output, verdicts)?;
    reporting::print_table(output, results)?;
    if lent.starts > 0 || lent.lists > 0 {
        print_lent(output, &starts, &lists, lent)?;
    }
    Ok(())
}

// Loads the files of a run, and replays it; false where the input is too short.
fn replay_run<R: Read, W: Write>(
    input: &mut R,
    output: &mut W,
    constraint: &mut [u8],
    answer: &mut [u8],
    values: &mut [u64],
    verdicts: &mut [u8],
    results: &mut [u64],
) -> io::Result<bool> {
    if !next_both(input, constraint, answer)? {
        return Ok(false);
    }
    replay(input, output, constraint, answer, values, verdicts, results)?;
    Ok(true)
}

fn run<R: Read, W: Write>(input: &mut R, output: &mut W, sizes: Sizes) -> io::Result<bool>
    requires { Fitted sizes }
{
    let mut constraint = [0u8; FILE];
    let mut answer = [0u8; FILE];
    let mut values = [0u64; VALUES];
    let mut verdicts = [NO_VERDICT; VERDICTS];
    let mut results = [0u64; RESULTS];
    let n = sizes.constraint;
    let m = sizes.answer;
    let p = sizes.values;
    let q = sizes.verdicts;
    let s = sizes.results;
    replay_run(
        input,
        output,
        &mut constraint[..n],
        &mut answer[..m],
        &mut values[..p],
        &mut verdicts[..q],
        &mut results[..s],
    )
}

// Replays the next run; false where none is left, or one is larger than the room for it.
fn run_case<R: Read, W: Write>(input: &mut R, output: &mut W) -> io::Result<bool> {
    match next_case(input)? {
        Some(sizes) => run(input, output, sizes),
        None => Ok(false),
    }
}

// A proved loop has to end, and nothing says that the input does: so the turns are counted.
fn main(rt: HostRuntime) -> io::Result<()> {
    let mut input = rt.stdin();
    let mut output = rt.stdout();
    for _ in 0..u64::MAX {
        if !run_case(&mut input, &mut output)? {
            break;
        }
    }
    Ok(())
}
