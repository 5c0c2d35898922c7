// Register values and marks, as arrays passed and returned by value.
ghost use Rattle.std.specs.Prelude.{◌≡◌, set};
ghost use Rattle.machine.specs.State.{fresh_state};

use crate::State;
use marks::Flags;

pub fn fresh() -> State
    ensures { result ≡ fresh_state }
{
    State {
        regs: [0; 16],
        marks: [false; 16],
        flags: Flags {
            tf: false,
            cy: false,
        },
        control: cpu::fresh_control(),
    }
}

// The values or the marks with one of them replaced; where there is no such register, as they were.
pub fn put<T: Copy>(all: [T; 16], i: u32, x: T) -> [T; 16]
    ensures { result ≡ set all i x }
{
    let mut after = all;
    if i < 16 {
        after[i as usize] = x;
    }
    after
}
