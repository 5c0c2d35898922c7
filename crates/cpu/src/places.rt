// The control part, and the ways to change one place of it, one for each definition of specs/Control.antt that its contract names.
#![tactic(auto, unfolding(crate::specs::Control::with_pc, crate::specs::Control::with_sfr, crate::specs::Control::with_pending, crate::specs::Control::with_cycles))]

ghost use Rattle.std.specs.Prelude.{◌≡◌};
ghost use Rattle.cpu.specs.Control.{fresh_control, with_pc, with_sfr, with_psw, with_ipc, with_hwdbg, with_pending, with_timer, with_cycles, sfr_of};

use crate::Control;
use word::ByteAddr;

pub fn fresh_control() -> Control
    ensures { result ≡ fresh_control }
{
    Control {
        pc: 0,
        psw: 0,
        ra: 0,
        ipc: 0,
        timer: 0,
        ibase: 0,
        usreg: 0,
        hwdbg: 3,
        bp0: 0,
        bp1: 0,
        wp0: 0,
        wp1: 0,
        pending: false,
        cycles: 0,
    }
}

pub fn with_pc(c: Control, a: ByteAddr) -> Control
    ensures { result ≡ with_pc c a }
{
    Control { pc: a.0, ..c }
}

pub fn with_psw(c: Control, psw: u32) -> Control
    ensures { result ≡ with_psw c psw }
{
    Control { psw, ..c }
}

pub fn with_ra(c: Control, ra: u32) -> Control
    ensures { result ≡ with_sfr 1 c ra }
{
    Control { ra, ..c }
}

pub fn with_ipc(c: Control, ipc: u32) -> Control
    ensures { result ≡ with_ipc c ipc }
{
    Control { ipc, ..c }
}

pub fn with_hwdbg(c: Control, hwdbg: u32) -> Control
    ensures { result ≡ with_hwdbg c hwdbg }
{
    Control { hwdbg, ..c }
}

pub fn with_pending(c: Control, pending: bool) -> Control
    ensures { result ≡ with_pending c pending }
{
    Control { pending, ..c }
}

pub fn with_timer(c: Control, timer: u32, pending: bool) -> Control
    ensures { result ≡ with_timer c timer pending }
{
    Control {
        timer,
        pending,
        ..c
    }
}

pub fn with_cycles(c: Control, cycles: u32) -> Control
    ensures { result ≡ with_cycles c cycles }
{
    Control { cycles, ..c }
}

pub fn with_sfr(n: u32, c: Control, x: u32) -> Control
    ensures { result ≡ with_sfr n c x }
{
    match n {
        0 => Control { psw: x, ..c },
        1 => Control { ra: x, ..c },
        2 => Control { ipc: x, ..c },
        3 => Control { timer: x, ..c },
        4 => Control { ibase: x, ..c },
        5 => Control { usreg: x, ..c },
        6 => Control { hwdbg: x, ..c },
        7 => Control { bp0: x, ..c },
        8 => Control { bp1: x, ..c },
        9 => Control { wp0: x, ..c },
        10 => Control { wp1: x, ..c },
        _ => c,
    }
}

pub fn sfr_of(n: u32, c: Control) -> u32
    ensures { result ≡ sfr_of n c }
{
    // IPC, which every return reads, comes first: the compiler makes the match a table in memory, into which it first writes all fields.
    if n == 2 {
        return c.ipc;
    }
    match n {
        0 => c.psw,
        1 => c.ra,
        2 => c.ipc,
        3 => c.timer,
        4 => c.ibase,
        5 => c.usreg,
        6 => c.hwdbg,
        7 => c.bp0,
        8 => c.bp1,
        9 => c.wp0,
        10 => c.wp1,
        _ => 0,
    }
}
