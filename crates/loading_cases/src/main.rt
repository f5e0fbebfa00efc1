// Prints, for each of its arguments, how many bytes of the file are read, and the report on one answer to it as a constraint file.
// tools/loading_cases.py writes the files, the arguments and, by an evaluator of its own, what is printed.
#![tactic(auto)]

use loading::{FILE_ROOM, load};
use reporting::print_count;
use std::io::{self, Write};
use verdict_printing::print_report;

fn show(rt: &HostRuntime, i: usize) -> io::Result<()> {
    let mut room = [0u8; FILE_ROOM];
    let n = load(rt, i, &mut room)?;
    let mut output = rt.stdout();
    print_count(&mut output, b"bytes ", n)?;
    output.write_all(b"\n")?;
    print_report(&mut output, &room[..n], b"s SATISFIABLE\n")
}

// Five files, and an argument that is not there.
fn main(rt: HostRuntime) -> io::Result<()> {
    show(&rt, 1)?;
    show(&rt, 2)?;
    show(&rt, 3)?;
    show(&rt, 4)?;
    show(&rt, 5)?;
    show(&rt, 6)
}
