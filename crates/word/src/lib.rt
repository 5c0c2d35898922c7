// 32-bit words: bits and fields, arithmetic, addresses, and bytes of memory. Every function has an answer for every input.
#![tactic(auto)]

mod access;
mod addresses;
mod arithmetic;
mod bits;

pub use access::{bytes, has_above, is_inside, load, store};
pub use addresses::{align, byte_sum, is_odd, jump_sum};
pub use arithmetic::{add, asr, extend, fits, is_less, lsl, lsr, mult, sub};
pub use bits::{field, is_on, number, with_bit, with_field};

// An address counts bytes and a displacement halfwords, both modulo 2^32. Only `jump_sum` joins them.
#[derive(Clone, Copy)]
pub struct ByteAddr(pub u32);

#[derive(Clone, Copy)]
pub struct HalfDisp(pub u32);

// The size of an access: 1, 2 or 4 bytes.
#[derive(Clone, Copy)]
pub enum Width {
    Byte = 1,
    Half = 2,
    Word = 4,
}

// What an addition or a subtraction gives: the word, and its carry or borrow.
#[derive(Clone, Copy)]
pub struct Sum {
    pub value: u32,
    pub carry: bool,
}
