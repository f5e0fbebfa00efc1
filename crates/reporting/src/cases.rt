// Cases of two files and three tables, as the input has them: a line of 47 bytes, and the bytes of the files.
// The line has a letter and five numbers of eight hexadecimal digits: the lengths of the constraint file and of the answer, and the entries of the tables of values, verdicts and results.
ghost use Rattle.std.specs.Prelude.{IfOk, IfErr, IfSome, ◌≢◌};
ghost use Rattle.std.specs.IoError.{error_kind};
ghost use Rattle.reporting.specs.CaseRooms.{Fitted};

use super::{hex, next_bytes};
use std::io::{self, ErrorKind, Read};

// Room for a file, and for one that is longer than a file may be.
pub const FILE: usize = 70000;

pub const VALUES: usize = 300;

pub const VERDICTS: usize = 1100;

pub const RESULTS: usize = 1100;

// What stands in a table of verdicts before a call.
pub const NO_VERDICT: u8 = 7;

const HEADER: usize = 47;

// Where the five numbers of a header stand.
const FIRST: usize = 2;

const SECOND: usize = 11;

const THIRD: usize = 20;

const FOURTH: usize = 29;

const FIFTH: usize = 38;

const NUMBER: usize = 8;

#[derive(Clone, Copy)]
pub struct Sizes {
    pub constraint: usize,
    pub answer: usize,
    pub values: usize,
    pub verdicts: usize,
    pub results: usize,
}

fn read_header(header: &[u8; HEADER]) -> Sizes {
    Sizes {
        constraint: hex(header, FIRST, FIRST + NUMBER) as usize,
        answer: hex(header, SECOND, SECOND + NUMBER) as usize,
        values: hex(header, THIRD, THIRD + NUMBER) as usize,
        verdicts: hex(header, FOURTH, FOURTH + NUMBER) as usize,
        results: hex(header, FIFTH, FIFTH + NUMBER) as usize,
    }
}

// The next case; none where none is left, or it is larger than the room for it. Only a failed read is an error.
pub fn next_case<R: Read>(input: &mut R) -> io::Result<Option<Sizes>>
    ensures ok { IfOk result (λ next. IfSome next Fitted) }
    ensures err { IfErr result (λ e. error_kind e ≢ ErrorKind.UnexpectedEof) }
{
    let mut header = [0u8; HEADER];
    if !next_bytes(input, &mut header)? {
        return Ok(None);
    }
    let sizes = read_header(&header);
    if FILE < sizes.constraint
        || FILE < sizes.answer
        || VALUES < sizes.values
        || VERDICTS < sizes.verdicts
        || RESULTS < sizes.results
    {
        return Ok(None);
    }
    Ok(Some(sizes))
}

// Fills the bytes of both parts of a case from the input; false where it is too short.
pub fn next_both<R: Read>(input: &mut R, first: &mut [u8], second: &mut [u8]) -> io::Result<bool>
    ensures { IfErr result (λ e. error_kind e ≢ ErrorKind.UnexpectedEof) }
{
    if !next_bytes(input, first)? {
        return Ok(false);
    }
    next_bytes(input, second)
}
