// Writes the lines of docs/VECTORS.md, "Listing", through the proved library. The file `stdout` beside this folder is what the second program computes.
#![tactic(auto)]

mod lines;
mod tallies;

use crate::lines::take_all;
use crate::tallies::Tally;
use std::io;

fn write_row(rt: &impl Print, row: &Tally) -> io::Result<()> {
    println!(rt; "{}\t{}\t{}", row.name, row.lines, row.digest)
}

// The first row is the last line: the first half 0 is no instruction, so `half` was met first, and then each mnemonic in the order of its bits.
fn write_rows(rt: &impl Print, t: &[Tally; 60]) -> io::Result<()> {
    for row in &t[1..] {
        write_row(rt, row)?;
    }
    write_row(rt, &t[0])
}

fn main(rt: HostRuntime) -> io::Result<()> {
    let mut image = [0u8; 65536];
    let mut t = [Tally::FREE; 60];
    take_all(&mut image, &mut t);
    write_rows(&rt, &t)
}
