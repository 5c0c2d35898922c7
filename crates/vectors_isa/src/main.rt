// Writes the lines of docs/VECTORS.md through the proved library. The file `stdout` beside this folder is what the second program computes.
#![tactic(auto)]

mod corners;
mod instructions;
mod mnemonics;
mod tallies;
mod words;

use crate::instructions::{decode_all, encode_all};
use crate::mnemonics::{MNEMONICS, NAMES, NONE};
use crate::tallies::Tally;
use crate::words::{extensions, loads, results, stores, sums};
use std::io;

fn mnemonic_lines(rt: &impl Print, t: &[Tally; MNEMONICS]) -> io::Result<()> {
    for n in &t[..NONE] {
        println!(rt;
            "{}\t{}\t{}\t{}\t{}\t{}",
            n.name, n.pairs, n.pairs_digest, n.with_bits, n.without_bits, n.digest
        )?;
    }
    let none = &t[NONE];
    println!(rt; "{}\t{}\t{}", none.name, none.pairs, none.pairs_digest)
}

fn word_line(rt: &impl Print, name: &str, count: u64, digest: u64) -> io::Result<()> {
    println!(rt; "word\t{name}\t{count}\t{digest}")
}

fn main(rt: HostRuntime) -> io::Result<()> {
    let mut t = NAMES.map(|name| Tally::new(name));
    decode_all(&mut t);
    encode_all(&mut t);
    mnemonic_lines(&rt, &t)?;
    word_line(&rt, "add", 9216, sums(|x, y, c| word::add(x, y, c)))?;
    word_line(&rt, "sub", 9216, sums(|x, y, c| word::sub(x, y, c)))?;
    word_line(&rt, "mult", 2304, results(|x, y| word::mult(x, y)))?;
    word_line(&rt, "lsl", 2304, results(|x, y| word::lsl(x, y % 64)))?;
    word_line(&rt, "lsr", 2304, results(|x, y| word::lsr(x, y % 64)))?;
    word_line(&rt, "asr", 2304, results(|x, y| word::asr(x, y % 64)))?;
    let less = results(|x, y| u32::from(word::is_less(x, y)));
    word_line(&rt, "less", 2304, less)?;
    word_line(&rt, "extend", 1536, extensions())?;
    word_line(&rt, "load", 44, loads())?;
    word_line(&rt, "store", 33792, stores())
}
