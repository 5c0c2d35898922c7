// A case of docs/CORPUS.md: its sizes, and a machine in rooms of the largest.
ghost use Rattle.std.specs.Prelude.{◌≤◌};

use crate::digests::folded_line;
use machine::Line;
use reading::read_full;
use std::io;
use std::io::Read;
use word::{ByteAddr, Width};

// What is larger than its room is cut: a case that keeps to the limits of docs/CORPUS.md is not. The rooms are of fixed length, since a proved program has
// no heap (docs/DECISIONS.md).
#[derive(Clone, Copy)]
pub struct Sizes {
    pub memory: usize,
    pub marks: usize,
    pub tape: usize,
    pub budget: u64,
    ghost memory_fits: { memory ≤ 65600 },
    ghost marks_fit: { marks ≤ 65600 },
    ghost tape_fits: { tape ≤ 4096 },
}

fn size_at(bytes: &[u8], at: u32) -> usize {
    word::load(Width::Word, bytes, ByteAddr(at)) as usize
}

impl Sizes {
    pub fn read(bytes: &[u8]) -> Sizes {
        Sizes {
            memory: size_at(bytes, 0).min(65600),
            marks: size_at(bytes, 4).min(65600),
            tape: size_at(bytes, 8).min(4096),
            budget: size_at(bytes, 12) as u64,
        }
    }
}

#[derive(Drop)]
pub struct Machine {
    pub record: [u8; 160],
    pub memory: [u8; 65600],
    pub marks: [u8; 65600],
}

impl Machine {
    // Memory and its marks have the sizes that the case gives them.
    pub fn read(&mut self, input: &mut impl Read, sizes: Sizes) -> io::Result<()> {
        read_full(input, &mut self.memory[..sizes.memory])?;
        read_full(input, &mut self.marks[..sizes.marks])?;
        Ok(())
    }

    pub fn copy_from(&mut self, other: &Machine, sizes: Sizes) {
        self.record = other.record;
        self.memory[..sizes.memory].copy_from_slice(&other.memory[..sizes.memory]);
        self.marks[..sizes.marks].copy_from_slice(&other.marks[..sizes.marks]);
    }

    // The reply, and how many steps were made.
    pub fn run(&mut self, sizes: Sizes, tape: &[u8], budget: u64) -> (u32, u64) {
        let mut steps: u64 = 0;
        let memory = &mut self.memory[..];
        let marks = &mut self.marks[..];
        let reply = abi::manik_run(
            &mut self.record,
            &mut memory[..sizes.memory],
            &mut marks[..sizes.marks],
            tape,
            budget,
            &mut steps,
        );
        (reply, steps)
    }

    // The line of a step, and then the step itself, as a run with a budget of 1.
    fn step(&mut self, sizes: Sizes, external: u8) -> Option<Line> {
        let seen = trace::show(
            u32::from(external),
            abi::state_at(&self.record),
            &self.memory[..sizes.memory],
            &self.marks[..sizes.marks],
        );
        let _ = self.run(sizes, &[external], 1);
        seen
    }

    // The digest of a run's trace, step by step from where it began.
    pub fn trace(&mut self, sizes: Sizes, tape: &[u8], steps: u64) -> u64 {
        let mut d: u64 = 1;
        for external in tape.iter().take(steps as usize) {
            if let Some(line) = self.step(sizes, *external) {
                d = folded_line(d, line);
            }
        }
        d
    }
}
