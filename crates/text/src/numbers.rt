// Decimal numbers and types.
ghost use Rattle.std.specs.Prelude.{◌≡◌, cond, ◌&&◌, ◌+◌, ◌≤◌, leb, length, drop};
ghost use Rattle.edition.specs.Edition.{is_width};
ghost use Rattle.text.specs.declared.Class.TheVariants.{Digit, Solid};
ghost use Rattle.text.specs.declared.NumberError.TheVariants.{TooBig, NotANumber};
ghost use Rattle.text.specs.declared.TypeError.TheVariants.{NoWidth, NoType};
ghost use Rattle.text.specs.Bytes.{front_of};
ghost use Rattle.text.specs.Scan.{is_of, past, magnitude, number_read, type_with_digits, type_behind_colon, StopsAt};

use super::scan::{is_digit, scan, token_ends};
use super::{Class, Digits, NumberError, TypeError, TypeFound};
use edition::Edition;

// The digits of a constant or a value, at most.
pub const MAX_DIGITS: usize = 20;

// Digits whose number has passed 2^64 at `at`.
fn too_big(text: &[u8], at: usize) -> Digits
    requires { at ≤ length text.now }
    ensures { (result.number ≡ Err TooBig) × (result.stop ≡ past (is_of Digit) text.now at) }
{
    Digits {
        number: Err(NumberError::TooBig),
        stop: scan(text, at, Class::Digit),
    }
}

// The digits from `at` on; where none stand there, their number is 0.
pub fn digits_at(text: &[u8], at: usize) -> Digits
    requires { at ≤ length text.now }
    ensures { (result.number ≡ magnitude (front_of (is_of Digit) (drop at text.now))) × (result.stop ≡ past (is_of Digit) text.now at) }
{
    let mut n: u64 = 0;
    let mut i = at;
    while i < text.len() {
        if !is_digit(text[i]) {
            return Digits {
                number: Ok(n),
                stop: i,
            };
        }
        let d = (text[i] - b'0') as u64;
        if u64::MAX / 10 < n {
            return too_big(text, i);
        }
        let m = n * 10;
        if u64::MAX - m < d {
            return too_big(text, i);
        }
        n = m + d;
        i += 1;
    }
    Digits {
        number: Ok(n),
        stop: i,
    }
}

// The number, if it has 1 to `most` digits.
pub fn within_digits(
    number: Result<u64, NumberError>,
    digits: usize,
    most: usize,
) -> Result<u64, NumberError>
    ensures { result ≡ cond (leb 1 digits && leb digits most) number (Err NotANumber) }
{
    if digits == 0 || most < digits {
        return Err(NumberError::NotANumber);
    }
    number
}

// The number of 1 to `most` digits from `at` to the end.
pub fn number_at(text: &[u8], at: usize, most: usize) -> Result<u64, NumberError>
    requires { at ≤ length text.now }
    ensures { result ≡ number_read most (drop at text.now) }
{
    let digits = digits_at(text, at);
    let stop = digits.stop;
    let number = digits.number;
    if stop < text.len() {
        return Err(NumberError::NotANumber);
    }
    within_digits(number, stop - at, most)
}

// The number of 1 to `most` digits behind the byte at `at`; none where the text ends there.
pub fn number_behind(text: &[u8], at: usize, most: usize) -> Result<u64, NumberError>
    requires { at ≤ length text.now }
    ensures { result ≡ number_read most (drop (at + 1) text.now) }
{
    if at < text.len() {
        let next = at + 1;
        number_at(text, next, most)
    } else {
        Err(NumberError::NotANumber)
    }
}

// A width that is spelt right.
fn width(k: u64) -> Result<u64, TypeError>
    ensures { result ≡ cond (is_width k) (Ok k) (Err NoWidth) }
{
    if Edition::is_width(k) {
        Ok(k)
    } else {
        Err(TypeError::NoWidth)
    }
}

// No type from `at` on.
fn no_type(at: usize) -> TypeFound
    ensures { result.width ≡ Err NoType }
{
    TypeFound {
        width: Err(TypeError::NoType),
        stop: at,
    }
}

// The K of a type, from `at` to the end of the token: one or two digits.
fn width_at(line: &[u8], at: usize) -> TypeFound
    requires { at ≤ length line.now }
    ensures { (result.width ≡ type_with_digits (front_of (is_of Solid) (drop at line.now))) × StopsAt (past (is_of Solid) line.now at) result.stop result.width }
{
    if at == line.len() {
        return no_type(at);
    }
    if !is_digit(line[at]) {
        return no_type(at);
    }
    let a = (line[at] - b'0') as u64;
    let next = at + 1;
    if token_ends(line, next) {
        return TypeFound {
            width: width(a),
            stop: next,
        };
    }
    if !is_digit(line[next]) {
        return no_type(at);
    }
    let b = (line[next] - b'0') as u64;
    let stop = at + 2;
    if (a != 0) & token_ends(line, stop) {
        return TypeFound {
            width: width(a * 10 + b),
            stop,
        };
    }
    no_type(at)
}

// The colon and the type `iK` from `at` to the end of the token; where they are not there, it is left open where the token stops.
pub fn type_at(line: &[u8], at: usize) -> TypeFound
    requires { at ≤ length line.now }
    ensures { (result.width ≡ type_behind_colon (front_of (is_of Solid) (drop at line.now))) × StopsAt (past (is_of Solid) line.now at) result.stop result.width }
{
    if line.len() - at < 2 {
        return no_type(at);
    }
    if line[at] != b':' {
        return no_type(at);
    }
    let letter = at + 1;
    if line[letter] != b'i' {
        return no_type(at);
    }
    width_at(line, at + 2)
}
