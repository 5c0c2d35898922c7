// The program counter, and the effect of an instruction: a register, or only the control part.
#![tactic(auto, unfolding(crate::specs::Exec::branch, crate::specs::Exec::onward, crate::specs::Exec::go_to, crate::specs::Exec::jump, crate::specs::Exec::linked))]

ghost use Rattle.std.specs.Prelude.{◌≡◌, if◌then◌else◌};
ghost use Rattle.cpu.specs.Control.{wants, with_tf, with_cy};
ghost use Rattle.cpu.specs.Cycles.{branch_cost};
ghost use Rattle.cpu.specs.Exec.{onward, go_to, linked, jump, branch, puts_reg, moves, costing};

use crate::places::{with_pc, with_psw, with_ra};
use crate::{Control, Effect, NO_REG};
use word::{ByteAddr, HalfDisp, Width};

pub fn go_on(n: u32, c: Control) -> Control
    ensures { result ≡ onward n c }
{
    with_pc(c, word::byte_sum(ByteAddr(c.pc), n))
}

pub fn go_to(a: u32, c: Control) -> Control
    ensures { result ≡ go_to a c }
{
    with_pc(c, word::align(Width::Half, ByteAddr(a)))
}

pub fn link(c: Control) -> Control
    ensures { result ≡ linked c }
{
    let after = word::byte_sum(ByteAddr(c.pc), 4);
    with_ra(c, after.0)
}

pub fn jump_by(d: HalfDisp, c: Control) -> Control
    ensures { result ≡ jump d c }
{
    with_pc(c, word::jump_sum(ByteAddr(c.pc), d))
}

pub fn is_wanted(t: bool, c: Control) -> bool
    ensures { result ≡ wants t c }
{
    word::is_on(c.psw, 8) == t
}

// A register and the next instruction, at a cost.
pub fn set_at(cost: u8, d: u32, v: u32, c: Control) -> Effect
    ensures { result ≡ costing cost (puts_reg d v c) }
{
    Effect {
        control: go_on(2, c),
        reg: d,
        value: v,
        wrote: false,
        cost,
    }
}

// The same in one cycle.
pub fn set_reg(d: u32, v: u32, c: Control) -> Effect
    ensures { result ≡ costing 1 (puts_reg d v c) }
{
    set_at(1, d, v, c)
}

pub fn move_to(cost: u8, c: Control) -> Effect
    ensures { result ≡ costing cost (moves c) }
{
    Effect {
        control: c,
        reg: NO_REG,
        value: 0,
        wrote: false,
        cost,
    }
}

pub fn branch_by(t: bool, d: HalfDisp, n: u32, c: Control) -> Effect
    ensures { result ≡ costing (branch_cost t c) (moves (branch t d n c)) }
{
    if is_wanted(t, c) {
        move_to(2, jump_by(d, c))
    } else {
        move_to(3, go_on(n, c))
    }
}

// A sum or difference, with CY.
pub fn set_sum(d: u32, s: word::Sum, c: Control) -> Effect
    ensures { result ≡ costing 1 (puts_reg d s.value (with_cy c s.carry)) }
{
    set_reg(d, s.value, with_psw(c, word::with_bit(c.psw, 9, s.carry)))
}

pub fn set_tf(t: bool, c: Control) -> Effect
    ensures { result ≡ costing 1 (moves (onward 2 (with_tf c t))) }
{
    move_to(1, go_on(2, with_psw(c, word::with_bit(c.psw, 8, t))))
}

// A register that takes a value if that is wanted, and else keeps its own.
pub fn set_if(wanted: bool, d: u32, v: u32, x: u32, c: Control) -> Effect
    ensures { result ≡ costing 1 (puts_reg d (if wanted then v else x) c) }
{
    if wanted {
        set_reg(d, v, c)
    } else {
        set_reg(d, x, c)
    }
}
