// Reading the files that a program's arguments name.
#![tactic(auto)]

ghost use Rattle.std.specs.Prelude.{◌≡◌, IfOk, IfErr, OnErr};
ghost use Rattle.std.specs.IoError.{error_kind};
ghost use Rattle.loading.specs.Loading.{IsPrefixLen, Seen};

use edition::Edition;
use std::fs::{self, File};
use std::io::{self, ErrorKind, Read};
use std::rt::Env;

// Room for a file, and for one byte more, so that one that is too long is seen to be.
pub const FILE_ROOM: usize = Edition::FILE_BYTES + 1;

// Room for a path: the system opens no longer one.
const PATH_ROOM: usize = 4096;

// Opens the file that argument i names; none where it cannot be opened.
// The library opens only names that are text, so another name is an error, and no empty file.
fn open(rt: &HostRuntime, i: usize) -> io::Result<Option<File>>
    ensures { IfErr result (λ e. error_kind e ≡ ErrorKind.InvalidData) }
{
    let mut path = [0u8; PATH_ROOM];
    let Ok(length) = rt.arg(i, &mut path) else {
        return Ok(None);
    };
    match str::from_utf8(&path[..length]) {
        Ok(name) => Ok(fs::open(rt, name).ok()),
        Err(_) => Err(io::Error::from(ErrorKind::InvalidData)),
    }
}

// Reads until the room is full, the file ends or a read fails.
fn read_from(file: &mut File, room: &mut [u8]) -> usize
    ensures { IsPrefixLen result room.new }
{
    let mut done = 0;
    while done < room.len() {
        match file.read(&mut room[done..]) {
            Ok(0) => break,
            Ok(n) => done += n,
            Err(_) => break,
        }
    }
    done
}

// Reads the file that argument i names to the front of the room, and answers how many bytes stand there.
// One that cannot be opened counts as empty, and so does a missing argument; a name that is not UTF-8 is an error.
pub fn load(rt: &HostRuntime, i: usize, room: &mut [u8; FILE_ROOM]) -> io::Result<usize>
    ensures prefix_len { IfOk result (λ n. IsPrefixLen n room.new) }
    ensures seen { IfOk result (λ n. Seen n room.new) }
    ensures unchanged { OnErr result (room.new ≡ room.old) }
    ensures kind { IfErr result (λ e. error_kind e ≡ ErrorKind.InvalidData) }
{
    match open(rt, i)? {
        Some(mut file) => Ok(read_from(&mut file, room)),
        None => Ok(0),
    }
}
