// spearcheck CONSTRAINTS ANSWER: reads the two files, and prints the report on the answer.
#![tactic(auto)]

use loading::{FILE_ROOM, load};
use std::io;
use verdict_printing::print_report;

fn main(rt: HostRuntime) -> io::Result<()> {
    let mut constraint = [0u8; FILE_ROOM];
    let mut answer = [0u8; FILE_ROOM];
    let n = load(&rt, 1, &mut constraint)?;
    let m = load(&rt, 2, &mut answer)?;
    print_report(&mut rt.stdout(), &constraint[..n], &answer[..m])
}
