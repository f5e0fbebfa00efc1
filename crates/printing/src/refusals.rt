// The text of a refusal.
ghost use Rattle.std.specs.Prelude.{◌+◌, ◌≤◌, length};
ghost use Rattle.printing.specs.Room.{Put};
ghost use Rattle.printing.specs.RefusalText.{refusal_text};

use super::{put_byte, put_bytes, put_count};
use refusal::Refusal;

// As in `refused 15 constraint 32`, with no line end.
pub fn put_refusal(refusal: Refusal, room: &mut [u8], at: usize) -> usize
    requires { at + length (refusal_text refusal) ≤ length room.old }
    ensures { Put (refusal_text refusal) room.old at result room.new }
{
    let subject = refusal.subject;
    let numbered = put_count(b"refused ", refusal.fault.number() as u64, room, at);
    let word = put_byte(b' ', room, numbered);
    let named = put_bytes(subject.word(), room, word);
    put_count(b" ", refusal.position as u64, room, named)
}
