// Special function registers, jumps and swint; each says what exec says of it.
#![tactic(auto, unfolding(crate::specs::Exec::exec, crate::specs::Exec::makes, crate::specs::Cycles::cost_of, crate::specs::Exec::psw_written, crate::specs::Exec::leave, crate::specs::Exec::written, crate::specs::Exec::timer_written))]

ghost use Rattle.std.specs.Prelude.{◌≡◌};
ghost use Rattle.isa.specs.declared.Instr.{Instr};
ghost use Rattle.cpu.specs.Exec.{accepted, timer_written, psw_written, written, leave, exec};

use crate::effects::{branch_by, go_on, go_to, jump_by, link, move_to, set_reg};
use crate::places::{sfr_of, with_hwdbg, with_psw, with_sfr, with_timer};
use crate::{Control, Effect, NO_REG};
use isa::{LongOp, ShortOp};
use word::HalfDisp;

pub fn mfsfr(d: u32, n: u32, c: Control) -> Effect
    ensures { result ≡ exec (Instr.Mfsfr d n) 0 0 0 c }
{
    set_reg(d, sfr_of(n, c), c)
}

fn is_accepted(c: Control) -> bool
    ensures { result ≡ accepted c }
{
    !word::is_on(c.psw, 3) || word::is_on(c.psw, 2)
}

fn write_timer(v: u32, c: Control) -> Control
    ensures { result ≡ timer_written v c }
{
    if is_accepted(c) {
        with_timer(c, v, false)
    } else {
        c
    }
}

fn keep_psw(p: u32, v: u32) -> u32
    ensures { result ≡ psw_written p v }
{
    let a = word::with_field(v, 12, 1, word::field(p, 12, 1));
    word::with_field(a, 26, 6, word::field(p, 26, 6))
}

fn write_sfr(n: u32, v: u32, c: Control) -> Control
    ensures { result ≡ written n v c }
{
    match n {
        0 => with_psw(c, keep_psw(c.psw, v)),
        3 => write_timer(v, c),
        6 => with_hwdbg(c, word::with_field(c.hwdbg, 2, 4, word::field(v, 2, 4))),
        _ => with_sfr(n, c, v),
    }
}

pub fn mtsfr(n: u32, y: u32, c: Control) -> Effect
    ensures { result ≡ exec (Instr.Mtsfr n 0) 0 y 0 c }
{
    Effect {
        control: go_on(2, write_sfr(n, y, c)),
        reg: NO_REG,
        value: 0,
        wrote: n == 3 && is_accepted(c),
        cost: 1,
    }
}

pub fn jr(y: u32, c: Control) -> Effect
    ensures { result ≡ exec (Instr.Jr 0) 0 y 0 c }
{
    move_to(2, go_to(y, c))
}

pub fn jrl(y: u32, c: Control) -> Effect
    ensures { result ≡ exec (Instr.Jrl 0) 0 y 0 c }
{
    move_to(2, go_to(y, link(c)))
}

fn leave_by(n: u32, c: Control) -> Control
    ensures { result ≡ leave n c }
{
    if n == 2 {
        let p = word::with_bit(c.psw, 3, word::is_on(c.psw, 6));
        with_psw(c, word::with_bit(p, 6, false))
    } else {
        c
    }
}

pub fn jsfr(n: u32, c: Control) -> Effect
    ensures { result ≡ exec (Instr.Jsfr n) 0 0 0 c }
{
    move_to(2, go_to(sfr_of(n, c), leave_by(n, c)))
}

pub fn swint(n: u32, c: Control) -> Effect
    ensures { result ≡ exec (Instr.Swint n) 0 0 0 c }
{
    move_to(2, go_on(2, c))
}

// Two functions, since each promises what exec says of an instruction of its own, and only jl links.
pub fn short_jump(op: ShortOp, d: HalfDisp, c: Control) -> Effect
    ensures { result ≡ exec (Instr.ShortJump op d) 0 0 0 c }
{
    match op {
        ShortOp::Sjf => branch_by(false, d, 2, c),
        ShortOp::Sjt => branch_by(true, d, 2, c),
        ShortOp::Sj => move_to(2, jump_by(d, c)),
    }
}

pub fn long_jump(op: LongOp, d: HalfDisp, c: Control) -> Effect
    ensures { result ≡ exec (Instr.LongJump op d) 0 0 0 c }
{
    match op {
        LongOp::Jf => branch_by(false, d, 4, c),
        LongOp::Jt => branch_by(true, d, 4, c),
        LongOp::J => move_to(2, jump_by(d, c)),
        LongOp::Jl => move_to(2, jump_by(d, link(c))),
    }
}
