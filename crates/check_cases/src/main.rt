// Prints what the check answers to each case of standard input, what it leaves in the tables that it is lent, the report on the two files, and the number that a C program gets.
// tools/check_cases.py writes the cases and, by an evaluator of its own, the answers.
//
// A case is a line of 47 bytes with `k` and five numbers of eight hexadecimal digits, and the bytes of two files:
// the numbers are the lengths of the constraint file and of the answer, and the entries of the tables of values, verdicts and results.
#![tactic(auto)]

ghost use Rattle.reporting.specs.CaseRooms.{Fitted};

use reporting::cases::{FILE, NO_VERDICT, RESULTS, Sizes, VALUES, VERDICTS, next_both, next_case};
use spear::spear_check;
use std::io::{self, Read, Write};
use tables::check::check;
use verdict_printing::{print_reply, print_report};

// Prints what the check, the report and the C call answer.
fn print_case<W: Write>(
    output: &mut W,
    constraint: &[u8],
    answer: &[u8],
    values: &mut [u64],
    verdicts: &mut [u8],
    results: &mut [u64],
) -> io::Result<()> {
    reporting::fill(values);
    reporting::fill_down(results);
    print_reply(output, check(constraint, answer, values, verdicts, results))?;
    reporting::print_table(output, values)?;
    reporting::print_table(output, verdicts)?;
    reporting::print_table(output, results)?;
    print_report(output, constraint, answer)?;
    let code = spear_check(constraint, answer) as usize;
    reporting::print_count(output, b"code ", code)?;
    output.write_all(b"\n")
}

// Loads the files of a case, and answers it; false where the input is too short.
fn answer_case<R: Read, W: Write>(
    input: &mut R,
    output: &mut W,
    constraint: &mut [u8],
    answer: &mut [u8],
    values: &mut [u64],
    verdicts: &mut [u8],
    results: &mut [u64],
) -> io::Result<bool> {
    if !next_both(input, constraint, answer)? {
        return Ok(false);
    }
    print_case(output, constraint, answer, values, verdicts, results)?;
    Ok(true)
}

fn run<R: Read, W: Write>(input: &mut R, output: &mut W, sizes: Sizes) -> io::Result<bool>
    requires { Fitted sizes }
{
    let mut constraint = [0u8; FILE];
    let mut answer = [0u8; FILE];
    let mut values = [0u64; VALUES];
    let mut verdicts = [NO_VERDICT; VERDICTS];
    let mut results = [0u64; RESULTS];
    let n = sizes.constraint;
    let m = sizes.answer;
    let p = sizes.values;
    let q = sizes.verdicts;
    let s = sizes.results;
    answer_case(
        input,
        output,
        &mut constraint[..n],
        &mut answer[..m],
        &mut values[..p],
        &mut verdicts[..q],
        &mut results[..s],
    )
}

// Answers the next case; false where none is left, or one is larger than the room for it.
fn run_case<R: Read, W: Write>(input: &mut R, output: &mut W) -> io::Result<bool> {
    match next_case(input)? {
        Some(sizes) => run(input, output, sizes),
        None => Ok(false),
    }
}

// A proved loop has to end, and nothing says that the input does: so the turns are counted.
fn main(rt: HostRuntime) -> io::Result<()> {
    let mut input = rt.stdin();
    let mut output = rt.stdout();
    for _ in 0..u64::MAX {
        if !run_case(&mut input, &mut output)? {
            break;
        }
    }
    Ok(())
}
