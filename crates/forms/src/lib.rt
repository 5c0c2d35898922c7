// The lines of an assembler text: fields, mnemonics, operands, and what a line says.
#![tactic(auto)]

mod fields;
mod form;
mod says;
mod shapes;

pub use fields::{cut_line, tabs_in};
pub use form::{is_known, number_at, what_of};
use isa::Kind;
pub use says::{bits_at, bits_of};
pub use shapes::{shape_of, table};

// What a mnemonic stands for.
#[derive(Clone, Copy)]
pub enum What {
    Code(Kind),
    Half,
    Word,
}

// What an operand field holds: nothing, a register, an SFR, one of the first four, or a sum. `Never` is that of no line. The definition `kind_shape` names three
// for each kind, `Nothing` and `Never` like the others.
#[derive(Clone, Copy)]
pub enum Sort {
    Nothing,
    Never,
    Reg,
    Sfr,
    LowSfr,
    Sum,
}

// The bytes that a line takes, and its operands.
#[derive(Clone, Copy)]
pub struct Shape {
    pub size: u32,
    pub first: Sort,
    pub second: Sort,
    pub third: Sort,
}

// Field n of a line stands from `fromn` to `ton`, and the first from 0 on: its own label, its mnemonic, three operands. Fields that it lacks
// are empty, at its end. The definition cut_in names the ten places one by one, so they are no array of ranges.
#[derive(Clone, Copy)]
pub struct Cut {
    pub to0: usize,
    pub from1: usize,
    pub to1: usize,
    pub from2: usize,
    pub to2: usize,
    pub from3: usize,
    pub to3: usize,
    pub from4: usize,
    pub to4: usize,
    pub end: usize,
}
