// Parts of a file put into a room: names stand there.
ghost use Rattle.std.specs.Prelude.{◌+◌, ◌≤◌, length, take, drop};
ghost use Rattle.printing.specs.Room.{Put};
ghost use Rattle.printing.specs.Parts.{Part};

use super::put_bytes;
use text::Span;

// As many of the `len` bytes at `start` as the file has.
pub fn part(file: &[u8], start: usize, len: usize) -> Span
    ensures { Part file.now (take len (drop start file.now)) result }
{
    if file.len() < start {
        return Span { start: 0, stop: 0 };
    }
    if file.len() - start < len {
        return Span {
            start,
            stop: file.len(),
        };
    }
    Span {
        start,
        stop: start + len,
    }
}

pub fn put_part(file: &[u8], start: usize, len: usize, room: &mut [u8], at: usize) -> usize
    requires { at + length (take len (drop start file.now)) ≤ length room.old }
    ensures { Put (take len (drop start file.now)) room.old at result room.new }
{
    let name = part(file, start, len);
    let first = name.start;
    let stop = name.stop;
    put_bytes(&file[first..stop], room, at)
}
