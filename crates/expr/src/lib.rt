// Expressions of the assembler: values, and the form.
#![tactic(auto)]

mod cycle;
mod form;
mod labels;
mod leaves;
mod turn;
mod values;

pub use cycle::evaluate;
pub use form::is_sum;
pub use labels::{find, label, place};

// A label that is set, in a table of them: its name's number, and its address.
#[derive(Clone, Copy)]
pub struct Entry {
    pub name: u64,
    pub place: u32,
}

// Three cases and no Result: `combined` of specs/Value.antt names them, and tells an unknown label of either operand before a value that is too large; `?` would
// tell the fault of the left one.
#[derive(Clone, Copy)]
pub enum Value {
    Is(i32),
    Large,
    Unknown,
}

#[derive(Clone, Copy)]
pub enum Fault {
    Form,
    Deep,
}

// A value and how many bytes were read, or what is wrong with the form first.
pub type Read = Result<(Value, usize), Fault>;
