// What the programs share: reading bytes and numbers, tables, and printing counts and refusals.
#![tactic(auto)]

ghost use Rattle.std.specs.Prelude.{◌-◌, ◌≤◌, ◌<◌, ◌≡◌, ◌≢◌, length, take, drop, IfErr};
ghost use Rattle.std.specs.IoError.{error_kind};
ghost use Rattle.reporting.specs.Hex.{digit_value, hex_after};

use printing::refusals::put_refusal;
use refusal::Refusal;
use std::fmt::Display;
use std::io::{self, ErrorKind, Read, Write};

pub mod cases;

// What stands in a table before a call: each entry is this much more, or less, than the one before it.
const STEP: u64 = 1000003;

#[tactic(auto, unfolding(crate::specs::Hex::digit_value))]
fn digit(c: u8) -> u64
    ensures { (result ≡ digit_value c) × (result < 16) }
{
    match c {
        b'0'..=b'9' => (c - b'0') as u64,
        b'a'..=b'f' => (c - b'a') as u64 + 10,
        _ => 0,
    }
}

// The hexadecimal number that stands from `at` to `end`, modulo 2^64: the shift cannot overflow.
pub fn hex(text: &[u8], at: usize, end: usize) -> u64
    requires { end ≤ length text.now }
    ensures { result ≡ hex_after 0 (take (end - at) (drop at text.now)) }
{
    let mut value = 0;
    for i in at..end {
        value = (value << 4) | digit(text[i]);
    }
    value
}

// Prints a word and a number behind it.
pub fn print_count<W: Write>(output: &mut W, word: &[u8], n: usize) -> io::Result<()> {
    output.write_all(word)?;
    write!(output, "{n}")
}

// Room for the text of any refusal: its words, and two numbers of 20 digits.
const REFUSAL_BYTES: usize = 60;

// Prints a refusal, with no line end.
pub fn print_refusal<W: Write>(output: &mut W, refusal: Refusal) -> io::Result<()> {
    let mut room = [0u8; REFUSAL_BYTES];
    let n = put_refusal(refusal, &mut room, 0);
    output.write_all(&room[..n])
}

// Prints a word and the number behind it, or the refusal, and a line end.
pub fn print_counted<W: Write>(
    output: &mut W,
    word: &[u8],
    reply: Result<usize, Refusal>,
) -> io::Result<()> {
    match reply {
        Ok(n) => print_count(output, word, n)?,
        Err(refusal) => print_refusal(output, refusal)?,
    }
    output.write_all(b"\n")
}

// Fills the bytes from the input; false where it is too short, which is no error: those are failed reads.
pub fn next_bytes<R: Read>(input: &mut R, bytes: &mut [u8]) -> io::Result<bool>
    ensures { IfErr result (λ e. error_kind e ≢ ErrorKind.UnexpectedEof) }
{
    match input.read_exact(bytes) {
        Ok(()) => Ok(true),
        Err(error) if error.kind() == ErrorKind::UnexpectedEof => Ok(false),
        Err(error) => Err(error),
    }
}

// Fills a table: its first entry, and behind each what `next` makes of it.
pub fn fill_by<T: Copy, F: Fn(T) -> T>(table: &mut [T], first: T, next: F)
    requires { F.IsAlwaysCallable next }
{
    let mut v = first;
    for entry in table.iter_mut() {
        *entry = v;
        v = next(v);
    }
}

// Fills a table, so that each entry is told from the others.
pub fn fill(table: &mut [u64]) {
    fill_by(table, STEP, |v| v.saturating_add(STEP));
}

// Fills a table from the largest word down, so that no entry is one of those that `fill` puts.
pub fn fill_down(table: &mut [u64]) {
    fill_by(table, u64::MAX, |v| v.saturating_sub(STEP));
}

// Prints the entries of a table, a space behind each, and a line end.
pub fn print_table<W: Write, T: Display>(output: &mut W, table: &[T]) -> io::Result<()> {
    for entry in table {
        write!(output, "{entry} ")?;
    }
    output.write_all(b"\n")
}
