// One instruction with marks: its fetch, with the order of its tests, and what it does or why it is not done.
#![tactic(auto)]

pub mod classes;
pub mod fetch;

ghost use Rattle.std.specs.Prelude.{◌≡◌};
ghost use Rattle.instruction.specs.Reply.{number_of};

use cpu::Effect;
use isa::Instr;
use marks::Taint;
use word::{ByteAddr, Width};

// The answers of a run, with document 01's numbers.
#[derive(Clone, Copy, Debug, PartialEq, Eq)]
pub enum Reply {
    MemoryLength = 1,
    MarkLength = 2,
    MarkPastEnd = 3,
    Form = 4,
    TapeLength = 5,
    TapeByte = 6,
    Budget = 10,
    FetchMarked = 12,
    NoInstruction = 13,
    MarkedOperand = 14,
}

// A register's value and mark.
#[derive(Clone, Copy)]
pub struct Val {
    pub value: u32,
    pub mark: bool,
}

// Why an instruction is not done, in the order of the tests. An access outside memory is a bus error; the others stop the run.
#[derive(Clone, Copy, Debug, PartialEq, Eq)]
pub enum Halt {
    FetchOutside,
    FetchMarked,
    NoInstruction,
    MarkedOperand,
    DataOutside,
}

// What an instruction reaches beside the registers: nothing, memory, or the entry of a swint. `Nowhere` has its line in each of the definitions `stored_to`,
// `marked_to`, `entry_by` and `data_of`, so an Option round the others would be opened four times and be no plainer.
#[derive(Clone, Copy)]
pub enum Reach {
    Nowhere,
    Reads(Width, ByteAddr),
    Writes(Width, ByteAddr),
    Raises(u32),
}

pub fn number(r: Reply) -> u32
    ensures { result ≡ number_of r }
{
    r as u32
}

// One instruction: it is not done, or has an effect, marks, and a place that it reaches. As a Result it costs the machine's loop 29 to 39 instructions a step,
// of about 100.
#[derive(Clone, Copy)]
pub enum Act {
    Halted(Halt),
    Does(Effect, Taint, Reach),
}
