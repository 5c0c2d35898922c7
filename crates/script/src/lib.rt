// The small program's language: an input taken in parts of any size.
#![tactic(auto)]

mod faults;
mod feeding;
mod lines;
mod rooms;

pub use faults::why;
pub use feeding::{feed, start};
pub use rooms::zeros;

// Where in an input the reader is: before `mem`, after it, after `run` (memory's size, and the budget), or past a bad line: a
// phase like the others, in which the reader goes on, as `rest_not_read` (crate answer) has it. It holds no fault: `line_of` answers `Phase.Bad` alone, and `fault_of` the fault.
#[derive(Clone, Copy)]
pub enum Phase {
    First,
    Body(u32),
    Done(u32, u32),
    Bad,
}

// Why an input is bad: the first line is not `mem`; a later one is none of the other three; something stands after `run`; a decimal that
// is none, starts with zero or is above its limit; an address that is none; bytes that are none, or lack a digit; a place outside memory; the last
// line is unfinished; the input ends before `run`.
#[derive(Clone, Copy)]
pub enum Reason {
    First,
    Word,
    AfterRun,
    Decimal,
    LeadingZero,
    TooLarge,
    Address,
    Bytes,
    Odd,
    Outside,
    Unended,
    Missing,
}

// A reason, the place in the line, from 1, and the byte there (10 at the line's end); no place and no byte, 0, where the input is at its
// end, as the definition `early` has it.
#[derive(Clone, Copy)]
pub struct Fault {
    pub reason: Reason,
    pub place: usize,
    pub byte: u8,
}

// The phase, the number of the unfinished line or of the bad one, how many bytes of the unfinished line are kept, and what is wrong with the bad one.
// The line itself is lent beside the Reader: the definition `fed` has the two apart, and `feed_of`, which `feed` promises, takes them so.
#[derive(Clone, Copy)]
pub struct Reader {
    pub phase: Phase,
    pub number: u64,
    pub used: usize,
    pub fault: Option<Fault>,
}

// Memory's bytes, and their marks, a bit for each.
#[derive(Drop)]
pub struct Memory {
    pub bytes: [u8; 16384],
    pub marks: [u8; 2048],
}
