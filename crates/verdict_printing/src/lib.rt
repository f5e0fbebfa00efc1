// What the check and the report answer, printed as the scope document has it.
#![tactic(auto)]

use judge::Overall;
use refusal::Refusal;
use report::{REPORT_BYTES, put_overall, report_on};
use std::io::{self, Write};

// Prints the overall verdict, with no line end.
pub fn print_overall<W: Write>(output: &mut W, overall: Overall) -> io::Result<()> {
    let mut room = [0u8; REPORT_BYTES];
    let n = put_overall(overall, &mut room, 0);
    output.write_all(&room[..n])
}

// Prints the report on an answer to a constraint file, any bytes both, and nothing else.
pub fn print_report<W: Write>(output: &mut W, constraint: &[u8], answer: &[u8]) -> io::Result<()> {
    let mut room = [0u8; REPORT_BYTES];
    let n = report_on(constraint, answer, &mut room);
    output.write_all(&room[..n])
}

// Prints the overall verdict or the refusal, and a line end.
pub fn print_reply<W: Write>(output: &mut W, reply: Result<Overall, Refusal>) -> io::Result<()> {
    match reply {
        Ok(overall) => print_overall(output, overall)?,
        Err(refusal) => reporting::print_refusal(output, refusal)?,
    }
    output.write_all(b"\n")
}
