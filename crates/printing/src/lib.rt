// Text put into a lent room at a place: bytes and numbers. Each function answers where its text ends.
#![tactic(auto)]

ghost use Rattle.std.specs.Prelude.{◌≡◌, [], ◌∷◌, ◌+◌, ◌<◌, ◌≤◌, length};
ghost use Rattle.printing.specs.Digits.{digits, counted};
ghost use Rattle.printing.specs.Room.{Put};

pub mod parts;
pub mod refusals;

pub fn put_byte(b: u8, room: &mut [u8], at: usize) -> usize
    requires { at < length room.old }
    ensures { Put (b ∷ []) room.old at result room.new }
{
    room[at] = b;
    at + 1
}

pub fn put_bytes(bytes: &[u8], room: &mut [u8], at: usize) -> usize
    requires { at + length bytes.now ≤ length room.old }
    ensures { Put bytes.now room.old at result room.new }
{
    let mut i = 0;
    while i < bytes.len() {
        room[at + i] = bytes[i];
        i += 1;
    }
    at + i
}

// The value without its last digit, then its last digit.
pub fn put_digits(v: u64, room: &mut [u8], at: usize) -> usize
    requires { at + length (digits v) ≤ length room.old }
    ensures { Put (digits v) room.old at result room.new }
{
    if v < 10 {
        return put_byte(b'0' + v as u8, room, at);
    }
    let last = put_digits(v / 10, room, at);
    put_byte(b'0' + (v % 10) as u8, room, last)
}

// The same, with no call for a single digit.
pub fn put_number(v: u64, room: &mut [u8], at: usize) -> usize
    requires { at + length (digits v) ≤ length room.old }
    ensures { Put (digits v) room.old at result room.new }
{
    if v < 10 {
        return put_byte(b'0' + v as u8, room, at);
    }
    put_digits(v, room, at)
}

// How many digits of a number below 100 stand before its last.
fn tens_count(v: u64) -> usize
    requires { v < 100 }
    ensures { length (digits v) ≡ result + 1 }
{
    if v < 10 { 0 } else { 1 }
}

// A number below 100, with no branch: a lone digit is stored over the zero in front of it.
pub fn put_below_hundred(v: u64, room: &mut [u8], at: usize) -> usize
    requires { (v < 100) × (at + length (digits v) ≤ length room.old) }
    ensures { Put (digits v) room.old at result room.new }
{
    let last = at + tens_count(v);
    room[at] = b'0' + (v / 10) as u8;
    room[last] = b'0' + (v % 10) as u8;
    last + 1
}

// A word and a number behind it.
pub fn put_count(word: &[u8], n: u64, room: &mut [u8], at: usize) -> usize
    requires { at + length (counted word.now n) ≤ length room.old }
    ensures { Put (counted word.now n) room.old at result room.new }
{
    let number = put_bytes(word, room, at);
    put_digits(n, room, number)
}

// How many digits a value has.
pub fn digit_count(v: u64) -> usize
    ensures { result ≡ length (digits v) }
{
    if v < 10 {
        return 1;
    }
    digit_count(v / 10) + 1
}
