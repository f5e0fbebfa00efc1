// The text of a report, put into a lent room.
#![tactic(auto)]

ghost use Rattle.std.specs.Prelude.{◌+◌, ◌≤◌, ◌≡◌, length, Ok, Err};
ghost use Rattle.printing.specs.Room.{Put};
ghost use Rattle.tables.specs.Report.{report_outcome};
ghost use Rattle.report.specs.Text.{overall_text, tally_text, report_text};
ghost use Rattle.report.specs.Write.{report_written};

use judge::Overall;
use printing::refusals::put_refusal;
use printing::{put_byte, put_bytes, put_count};
use refusal::Refusal;
use tables::reports::report;
use tables::{Report, Tally};

pub mod claims;

// The bytes of the longest report: two lines with five numbers of 20 digits.
pub const REPORT_BYTES: usize = 149;

// The overall verdict, with no line end.
pub fn put_overall(overall: Overall, room: &mut [u8], at: usize) -> usize
    requires { at + length (overall_text overall) ≤ length room.old }
    ensures { Put (overall_text overall) room.old at result room.new }
{
    match overall {
        Overall::Satisfied => put_bytes(b"satisfied", room, at),
        Overall::Violated(n) => put_count(b"violated ", n as u64, room, at),
        Overall::Disregarded(n) => put_count(b"disregarded ", n as u64, room, at),
    }
}

fn put_tally(tally: Tally, room: &mut [u8], at: usize) -> usize
    requires { at + length (tally_text tally) ≤ length room.old }
    ensures { Put (tally_text tally) room.old at result room.new }
{
    let lines = put_count(b"lines ", tally.lines as u64, room, at);
    let held = put_count(b" held ", tally.held as u64, room, lines);
    let violated = put_count(b" violated ", tally.violated as u64, room, held);
    put_count(b" disregarded ", tally.disregarded as u64, room, violated)
}

fn put_report(report: Report, room: &mut [u8]) -> usize
    requires { length (report_text (Ok report)) ≤ length room.old }
    ensures { Put (report_text (Ok report)) room.old 0 result room.new }
{
    let first = put_overall(report.overall, room, 0);
    let second = put_byte(b'\n', room, first);
    let end = put_tally(report.tally, room, second);
    put_byte(b'\n', room, end)
}

fn put_refused(refusal: Refusal, room: &mut [u8]) -> usize
    requires { length (report_text (Err refusal)) ≤ length room.old }
    ensures { Put (report_text (Err refusal)) room.old 0 result room.new }
{
    let end = put_refusal(refusal, room, 0);
    put_byte(b'\n', room, end)
}

// Writes a report or the refusal, and answers its length. There is room for any.
pub fn write_report(reply: Result<Report, Refusal>, room: &mut [u8; REPORT_BYTES]) -> usize
    ensures { record { end = result; room = room.new } ≡ report_written room.old reply }
{
    match reply {
        Ok(report) => put_report(report, room),
        Err(refusal) => put_refused(refusal, room),
    }
}

// Writes the report on an answer to a constraint file, any bytes both, and answers its length.
pub fn report_on(constraint: &[u8], answer: &[u8], room: &mut [u8; REPORT_BYTES]) -> usize
    ensures { record { end = result; room = room.new } ≡ report_written room.old (report_outcome constraint.now answer.now) }
{
    write_report(report(constraint, answer), room)
}
