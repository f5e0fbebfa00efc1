// Scanners: one loop for every class of bytes.
ghost use Rattle.std.specs.Prelude.{◌≡◌, true, ◌+◌, ◌^◌, ◌≤◌, ◌<◌, length, drop};
ghost use Rattle.refusal.specs.Lists.{every};
ghost use Rattle.text.specs.Bytes.{is_space, is_digit, is_letter, is_name_byte, is_printing, is_allowed};
ghost use Rattle.text.specs.Lines.{terminator_length, line_of, tokens_from, leads as leadsBy};
ghost use Rattle.text.specs.declared.Class.TheVariants.{Space, Printing};
ghost use Rattle.text.specs.Reading.{no_more_tokens};
ghost use Rattle.text.specs.Scan.{is_of, past, stop_digit, stop_digits_at, found_line, ends_token, tokens_by, Within};

use super::{Class, LineEnd, Span};
use refusal::{Fault, Refusal, Subject};

fn is_space(b: u8) -> bool
    ensures { result ≡ is_space b }
{
    if b' ' < b {
        false
    } else {
        (b == b' ') | (b == b'\t')
    }
}

pub(crate) fn is_digit(b: u8) -> bool
    ensures { result ≡ is_digit b }
{
    (b'0' <= b) & (b <= b'9')
}

pub fn is_letter(b: u8) -> bool
    ensures { result ≡ is_letter b }
{
    ((b'a' <= b) & (b <= b'z')) | ((b'A' <= b) & (b <= b'Z'))
}

pub fn is_name_byte(b: u8) -> bool
    ensures { result ≡ is_name_byte b }
{
    is_letter(b) | is_digit(b) | (b == b'_')
}

fn is_printing(b: u8) -> bool
    ensures { result ≡ is_printing b }
{
    (b' ' <= b) & (b <= b'~')
}

fn is_of(class: Class, b: u8) -> bool
    ensures { result ≡ is_of class b }
{
    match class {
        Class::Until(c) => b != c,
        Class::Space => is_space(b),
        Class::Solid => !is_space(b),
        Class::Digit => is_digit(b),
        Class::NameByte => is_name_byte(b),
        Class::Printing => is_printing(b),
    }
}

// The first place from `at` on whose byte is not of the class, or the end of the text.
pub fn scan(text: &[u8], at: usize, class: Class) -> usize
    requires { at ≤ length text.now }
    ensures { result ≡ past (is_of class) text.now at }
{
    let mut i = at;
    while i < text.len() {
        if is_of(class, text[i]) {
            i += 1;
        } else {
            return i;
        }
    }
    i
}

// As `scan` does for white space: the test without a choice of class.
pub fn spaces(text: &[u8], at: usize) -> usize
    requires { at ≤ length text.now }
    ensures { result ≡ past (is_of Space) text.now at }
{
    let mut i = at;
    while i < text.len() {
        if is_space(text[i]) {
            i += 1;
        } else {
            return i;
        }
    }
    i
}

// Whether a token that reaches `at` ends there.
pub fn token_ends(line: &[u8], at: usize) -> bool
    requires { at ≤ length line.now }
    ensures { result ≡ ends_token (drop at line.now) }
{
    if at == line.len() {
        return true;
    }
    is_space(line[at])
}

// 1 for a byte that is not printing, 0 for one that is.
fn stop_digit(b: u8) -> u32
    ensures { (result ≡ stop_digit b) × (result < 2) }
{
    if is_printing(b) { 0 } else { 1 }
}

// Which bytes at `at` are not printing, of 2, 4, 8 or 16: a binary digit for each, the first byte's lowest.
// The compiler makes vector code of it.
fn stops2(text: &[u8], at: usize) -> u32
    requires { at + 2 ≤ length text.now }
    ensures { (result ≡ stop_digits_at text.now at 2) × (result < 2 ^ 2) }
{
    let next = at + 1;
    stop_digit(text[at]) + 2 * stop_digit(text[next])
}

fn stops4(text: &[u8], at: usize) -> u32
    requires { at + 4 ≤ length text.now }
    ensures { (result ≡ stop_digits_at text.now at 4) × (result < 2 ^ 4) }
{
    stops2(text, at) + 4 * stops2(text, at + 2)
}

fn stops8(text: &[u8], at: usize) -> u32
    requires { at + 8 ≤ length text.now }
    ensures { (result ≡ stop_digits_at text.now at 8) × (result < 2 ^ 8) }
{
    stops4(text, at) + 16 * stops4(text, at + 4)
}

fn stops16(text: &[u8], at: usize) -> u32
    requires { at + 16 ≤ length text.now }
    ensures { result ≡ stop_digits_at text.now at 16 }
{
    stops8(text, at) + 256 * stops8(text, at + 8)
}

// As `scan` does for printing bytes, most of a line: 16 at a time.
fn printing_bytes(text: &[u8], at: usize) -> usize
    requires { at ≤ length text.now }
    ensures { result ≡ past (is_of Printing) text.now at }
{
    let mut i = at;
    while 16 <= text.len() - i {
        let stops = stops16(text, i);
        if stops != 0 {
            return i + u32::trailing_zeros(stops) as usize;
        }
        i += 16;
    }
    scan(text, i, Class::Printing)
}

// Where the bytes allowed in a line stop: runs of printing bytes, and tabs between them.
fn allowed(text: &[u8], at: usize) -> usize
    requires { at ≤ length text.now }
    ensures { result ≡ past is_allowed text.now at }
{
    let mut i = printing_bytes(text, at);
    while i < text.len() {
        if text[i] == b'\t' {
            let next = i + 1;
            i = printing_bytes(text, next);
        } else {
            return i;
        }
    }
    i
}

// Whether every byte from `at` on is of the class.
pub fn all(text: &[u8], at: usize, class: Class) -> bool
    requires { at ≤ length text.now }
    ensures { result ≡ every (is_of class) (drop at text.now) }
{
    scan(text, at, class) == text.len()
}

// The length of the terminator at `at`: LF, or CR LF.
fn terminator_length(file: &[u8], at: usize) -> usize
    requires { at < length file.now }
    ensures { result ≡ terminator_length (drop at file.now) }
{
    if file[at] == b'\n' {
        return 1;
    }
    let next = at + 1;
    if next == file.len() {
        return 0;
    }
    if (file[at] == b'\r') & (file[next] == b'\n') {
        2
    } else {
        0
    }
}

// The line from `at` on, or the place of its first byte that is not allowed. Its terminator is not allowed in it, so that one scan finds its end and a byte that is not allowed.
pub fn find_line(file: &[u8], at: usize) -> Result<LineEnd, usize>
    requires { at ≤ length file.now }
    ensures { result ≡ found_line (line_of at (drop at file.now)) }
{
    let stop = allowed(file, at);
    if file.len() <= stop {
        return Ok(LineEnd { stop, next: stop });
    }
    let next = stop + terminator_length(file, stop);
    if next == stop {
        return Err(stop);
    }
    Ok(LineEnd { stop, next })
}

// The first token of a line from `at` on, if there is one.
pub fn next_token(line: &[u8], at: usize) -> Option<Span>
    requires { at ≤ length line.now }
    ensures { (tokens_from true at (drop at line.now) ≡ tokens_by line.now result) × Within line.now at result }
{
    let start = scan(line, at, Class::Space);
    if start == line.len() {
        return None;
    }
    let stop = scan(line, start, Class::Solid);
    Some(Span { start, stop })
}

// There must be no token from `at` on.
pub fn no_more_tokens(subject: Subject, line: &[u8], at: usize) -> Result<(), Refusal>
    requires { at ≤ length line.now }
    ensures { result ≡ no_more_tokens subject (tokens_from true at (drop at line.now)) }
{
    match next_token(line, at) {
        Some(t) => Err(Refusal::of(subject, Fault::TokenCount, t.start)),
        None => Ok(()),
    }
}

// Whether the line from `at` on starts with a letter, then white space or the line's end.
pub fn leads(line: &[u8], at: usize, letter: u8) -> bool
    requires { at ≤ length line.now }
    ensures { result ≡ leadsBy letter (drop at line.now) }
{
    if at == line.len() {
        return false;
    }
    let next = at + 1;
    if next == line.len() {
        return letter == line[at];
    }
    (letter == line[at]) & is_space(line[next])
}
