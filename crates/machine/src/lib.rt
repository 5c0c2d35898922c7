// The machine: the choice of a step, one step, refusals, and a run under a budget.
#![tactic(auto)]

mod choice;
mod refusals;
mod registers;
pub mod run;
mod step;

pub use choice::choose;
use cpu::{Control, Entry};
use instruction::{Halt, Reply};
use marks::Flags;
pub use refusals::judge_all;
pub use registers::fresh;
pub use step::entry_of;
use word::ByteAddr;

// Sixteen registers, each with a mark; the marks of TF and CY; and what is never marked. Values and marks are two arrays, and not one of `Val`, since document 01
// names them so and the record of the C interface has them apart.
#[derive(Clone, Copy)]
pub struct State {
    pub regs: [u32; 16],
    pub marks: [bool; 16],
    pub flags: Flags,
    pub control: Control,
}

// What a step does: an entry, or one instruction. As an Option of an entry it would not say that where there is none an instruction is made.
#[derive(Clone, Copy)]
pub enum Event {
    Enter(Entry),
    Instruction,
}

// The start of a step: its fetch is not done, it is an entry with the control part after it, or it is the instruction whose first half has these bytes.
// One enum of three: by a Result, with an enum of two in it, the images of bench/ take 117 to 134 instructions a step, in place of 84 to 106.
#[derive(Clone, Copy)]
pub enum Begun {
    Halted(Halt),
    Enter(Control),
    Half(u8, u8),
}

// A completed step: the control part and the flags' marks after it; a register (NO_REG: none), its value and its mark. The register is a number, as in
// cpu::Effect: `after` of specs/Step.antt puts the value at it, which changes nothing for NO_REG.
#[derive(Clone, Copy)]
pub struct Done {
    pub control: Control,
    pub flags: Flags,
    pub reg: u32,
    pub value: u32,
    pub mark: bool,
}

// What a completed step shows: the program counter before it, the entry that it made, and the data address that it reached.
#[derive(Clone, Copy)]
pub struct Line {
    pub pc: ByteAddr,
    pub entry: Entry,
    pub address: Option<ByteAddr>,
}

#[derive(Clone, Copy)]
pub struct Ended {
    pub state: State,
    pub steps: usize,
    pub reply: Reply,
    pub cycles: u32,
}
