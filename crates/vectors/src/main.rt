// Reads the cases of docs/CORPUS.md, runs each through the proved library, and writes one line for each.
#![tactic(auto)]

mod cases;
mod digests;

use crate::cases::{Machine, Sizes};
use crate::digests::digest_of;
use reading::read_full;
use std::io::Read;
use std::{fmt, io, str};

// A record in hex. Its digits are laid out first and written at once: with `{b:02x}` for each byte the stored corpus takes 1.4 times the time.
#[derive(Clone, Copy)]
struct Hex<'a>(&'a [u8; 160]);

impl fmt::Display for Hex<'_> {
    fn fmt<W: fmt::Write>(&self, f: &mut fmt::Formatter<W>) -> fmt::Result {
        let table = text::glyph_table();
        let mut digits = [0u8; 320];
        for (i, b) in self.0.iter().enumerate() {
            let byte = u32::from(*b);
            digits[2 * i] = text::last_digit(&table, byte / 16);
            digits[2 * i + 1] = text::last_digit(&table, byte);
        }
        let Ok(text) = str::from_utf8(&digits) else {
            return Err(fmt::Error);
        };
        f.write_str(text)
    }
}

// A case's sizes and tape, the machine that runs it, and the one in which the run is made again, step by step.
#[derive(Drop)]
struct Rooms {
    sizes: [u8; 16],
    tape: [u8; 4096],
    first: Machine,
    again: Machine,
}

impl Rooms {
    fn answer_case(&mut self, rt: &impl Print, input: &mut impl Read) -> io::Result<()> {
        read_full(input, &mut self.sizes)?;
        let sizes = Sizes::read(&self.sizes);
        self.first.read(input, sizes)?;
        read_full(input, &mut self.tape[..sizes.tape])?;
        self.again.copy_from(&self.first, sizes);
        let (reply, steps) = self
            .first
            .run(sizes, &self.tape[..sizes.tape], sizes.budget);
        let trace = self.again.trace(sizes, &self.tape[..sizes.tape], steps);
        write_line(rt, &self.first, sizes, reply, steps, trace)
    }

    // At most 100,000 cases, so that the loop ends. A loop for vectors_asm and examples too would take the room that is read first, how many
    // bytes it needs and a closure that borrows the other rooms: no shorter than this one.
    fn answer_all(&mut self, rt: &impl Print, input: &mut impl Read) -> io::Result<()> {
        for _ in 0..100000 {
            if read_full(input, &mut self.first.record)? < 160 {
                return Ok(());
            }
            self.answer_case(rt, input)?;
        }
        Ok(())
    }
}

fn write_line(
    rt: &impl Print,
    ended: &Machine,
    sizes: Sizes,
    reply: u32,
    steps: u64,
    trace: u64,
) -> io::Result<()> {
    let record = Hex(&ended.record);
    let memory = digest_of(&ended.memory[..sizes.memory]);
    let marks = digest_of(&ended.marks[..sizes.marks]);
    println!(rt; "{reply}\t{steps}\t{record}\t{memory}\t{marks}\t{trace}")
}

fn main(rt: HostRuntime) -> io::Result<()> {
    let mut rooms = Rooms {
        sizes: [0; 16],
        tape: [0; 4096],
        first: Machine {
            record: [0; 160],
            memory: [0; 65600],
            marks: [0; 65600],
        },
        again: Machine {
            record: [0; 160],
            memory: [0; 65600],
            marks: [0; 65600],
        },
    };
    rooms.answer_all(&rt, &mut rt.reader())
}
