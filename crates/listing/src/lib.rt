// The listing of an image: one line for each instruction, in document 01's written form.
#![tactic(auto)]

mod lines;
mod names;
mod ranges;
mod rows;

pub use lines::line_at;
pub use ranges::{length, list, number};
use word::ByteAddr;

// An operand as it is written.
#[derive(Clone, Copy)]
pub enum Operand {
    // r0 to r15
    Reg(u32),
    // sfr0 to sfr10
    Sfr(u32),
    // a signed decimal
    Number(u32),
    // 0x and four digits
    Bits(u16),
}

#[derive(Clone, Copy)]
pub enum Row {
    One(Operand),
    Two(Operand, Operand),
    Three(Operand, Operand, Operand),
}

// Whether it has four bytes, the place of its mnemonic, its operands. `long` and Entry's `second` are no Option of the second half: bits_text of
// the specs of columns, which its theorems speak of, and second_in here say both.
#[derive(Clone, Copy)]
pub struct Shown {
    pub long: bool,
    pub place: u32,
    pub row: Row,
}

// What stands at an address: both halves there, and what is shown of them.
#[derive(Clone, Copy)]
pub struct Entry {
    pub at: ByteAddr,
    pub first: u16,
    pub second: u16,
    pub shown: Shown,
}

// One line: its bytes from the first on, how many they are, and the address after it. There is no heap for a Vec, and the definition line_of says the
// 48 bytes, zeros after the text, and the length.
#[derive(Clone, Copy)]
pub struct Line {
    pub text: [u8; 48],
    pub length: usize,
    pub next: ByteAddr,
}

// The image is over the size limit or the range is outside it, odd or reversed; the listing is longer than the buffer.
#[derive(Clone, Copy, Debug, PartialEq, Eq)]
pub enum Refusal {
    OutOfImage = 20,
    NoRoom = 21,
}
