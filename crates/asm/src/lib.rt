// The assembler: what its parts are called.
#![tactic(auto)]

mod answers;
mod labels;
mod lines;
mod passes;

pub use answers::{end, line, number, reply};
pub use passes::assemble;

// The numbers of document 02, ticket 4.
#[derive(Clone, Copy)]
pub enum Refusal {
    Start = 29,
    Form,
    Deep,
    Label,
    Twice,
    Many,
    Value,
    Room,
}

// The number of lines and the address after the last byte, or what is refused and the line.
pub type Assembled = Result<(usize, usize), (Refusal, usize)>;

// How many labels are set, and whether every line is of known form.
#[derive(Clone, Copy)]
pub struct Collected {
    pub count: usize,
    pub known: bool,
}
