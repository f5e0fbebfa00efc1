// A reply as one word.
ghost use Rattle.std.specs.Prelude.{◌≡◌, ◌<◌};
ghost use Rattle.spear.specs.Pack.{verdict_word, refusal_word, done_word, deciding_line, pack_refusal, pack_check, pack_change, pack_count};

use judge::Overall;
use judge::verdicts::overall_number;
use moves::Effect;
use refusal::Refusal;

// The sizes of the parts: a byte, a number, a position, a length.
const BYTE: u64 = 1 << 8;

const NUMBER: u64 = 1 << 16;

const POSITION: u64 = 1 << 40;

const LENGTH: u64 = 1 << 56;

// Where a part starts, as what it is multiplied by.
const AT_8: u64 = 1 << 8;

const AT_16: u64 = 1 << 16;

const AT_24: u64 = 1 << 24;

const AT_40: u64 = 1 << 40;

const AT_56: u64 = 1 << 56;

// The kinds of a refusal, and of a text that is written or an index that is built.
const KIND_REFUSED: u64 = 3;

const KIND_DONE: u64 = 4;

fn verdict_word(kind: u64, line: u64, named: u64, altered: u64, bits: u64) -> u64
    requires { kind < 256 }
    ensures { result ≡ verdict_word kind line named altered bits }
{
    kind + line % NUMBER * AT_8
        + named % NUMBER * AT_24
        + altered % NUMBER * AT_40
        + bits % BYTE * AT_56
}

fn refusal_word(number: u64, subject: u64, position: u64) -> u64
    ensures { result ≡ refusal_word number subject position }
{
    KIND_REFUSED + number % BYTE * AT_8 + subject % BYTE * AT_16 + position % POSITION * AT_24
}

fn done_word(length: u64) -> u64
    ensures { result ≡ done_word length }
{
    KIND_DONE + length % LENGTH * AT_8
}

fn deciding_line(overall: Overall) -> u64
    ensures { result ≡ deciding_line overall }
{
    match overall {
        Overall::Satisfied => 0,
        Overall::Violated(n) => n as u64,
        Overall::Disregarded(n) => n as u64,
    }
}

fn pack_refusal(refusal: Refusal) -> u64
    ensures { result ≡ pack_refusal refusal }
{
    refusal_word(
        refusal.fault.number() as u64,
        refusal.subject as u64,
        refusal.position as u64,
    )
}

pub(crate) fn pack_check(reply: Result<Overall, Refusal>) -> u64
    ensures { result ≡ pack_check reply }
{
    match reply {
        Ok(overall) => verdict_word(
            overall_number(overall) as u64,
            deciding_line(overall),
            0,
            0,
            0,
        ),
        Err(refusal) => pack_refusal(refusal),
    }
}

pub(crate) fn pack_change(reply: Result<Effect, Refusal>) -> u64
    ensures { result ≡ pack_change reply }
{
    match reply {
        Ok(effect) => verdict_word(
            overall_number(effect.overall) as u64,
            deciding_line(effect.overall),
            effect.named as u64,
            effect.altered as u64,
            effect.bits,
        ),
        Err(refusal) => pack_refusal(refusal),
    }
}

// Of a text that is written, its length; of an index that is built, how many lines are listed.
pub(crate) fn pack_count(reply: Result<usize, Refusal>) -> u64
    ensures { result ≡ pack_count reply }
{
    match reply {
        Ok(n) => done_word(n as u64),
        Err(refusal) => pack_refusal(refusal),
    }
}
