// The core without marks: its control part, entries, the timer, and what each instruction does.
#![tactic(auto)]

mod costs;
mod effects;
mod entries;
mod operands;
mod places;
mod system;
mod values;

pub use effects::is_wanted;
pub use entries::{
    data_error, enter, enter_swint, enter_watch, entry_cost, fetch_error, has_break, pass, watch,
    watch_cost,
};
pub use operands::{data_address, sources_of};
pub use places::{fresh_control, sfr_of};
pub use system::{jr, jrl, jsfr, long_jump, mfsfr, mtsfr, short_jump, swint};
pub use values::{
    alu, compare, compare_imm, conditional, conditional_imm, immediate, loaded, shift_imm, stored,
};

// Special function registers go by the guide's numbers, and bits of PSW and HWDBG by their places, as the definitions of specs/ write them (`with_sfr`, `entered`).
#[derive(Clone, Copy)]
pub struct Control {
    pub pc: u32,
    pub psw: u32,
    pub ra: u32,
    pub ipc: u32,
    pub timer: u32,
    pub ibase: u32,
    pub usreg: u32,
    pub hwdbg: u32,
    pub bp0: u32,
    pub bp1: u32,
    pub wp0: u32,
    pub wp1: u32,
    pub pending: bool,
    pub cycles: u32,
}

// What an instruction does to the values: the control part after it, a register (NO_REG: none) and its value, whether it wrote TIMER, and its cost in
// cycles.
#[derive(Clone, Copy)]
pub struct Effect {
    pub control: Control,
    pub reg: u32,
    pub value: u32,
    pub wrote: bool,
    pub cost: u8,
}

// The registers that an instruction reads.
#[derive(Clone, Copy)]
pub struct Sources {
    pub first: u32,
    pub second: u32,
}

// An entry: none, a swint's four bits, the hit that a debug entry shows, the line of an external one, and bus errors of a fetch and of data. That none is made has
// its line in `entered` and `entry_cost` as each of the others has, so it is a case and no `None`.
#[derive(Clone, Copy)]
pub enum Entry {
    Nothing,
    Swint(u32),
    Debug(u32),
    Timer,
    External(u32),
    FetchError,
    DataError,
}

// There are sixteen registers: this is none of them. A number, and no Option, since the definitions `no_reg` (specs/Exec.antt) and `after` (crate machine) say it.
pub const NO_REG: u32 = 16;

// A register that an instruction does not look at. A number, and no Option, since the definition `sources_of` (specs/Exec.antt) names two for each instruction.
const UNREAD: u32 = 0;
