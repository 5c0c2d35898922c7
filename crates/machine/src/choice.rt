// The choice of a step: a permitted interrupt by its priority, else a breakpoint, else one instruction.
ghost use Rattle.std.specs.Prelude.{◌≡◌, true, not, ◌&&◌};
ghost use Rattle.word.specs.Bits.{on};
ghost use Rattle.machine.specs.Step.{lowest, or_break, line_or, chosen};
ghost use Rattle.machine.specs.declared.Event.{Event};

use crate::Event;
use cpu::{Control, Entry};

// The lowest line that is high and enabled, 6 where there is none, as the definition `lowest` has it. The lines are six bits; one bit more, above them, ends the
// count. In most steps no line is high, so that is asked first.
fn lowest_line(t: u32, p: u32) -> u32
    ensures { result ≡ lowest 6 0 t p }
{
    if t == 0 {
        return 6;
    }
    let lines = t % 64 & p / 1048576 % 64;
    u32::trailing_zeros(lines + 64)
}

fn break_or(c: Control) -> Event
    ensures { result ≡ or_break c }
{
    if cpu::has_break(c) {
        Event::Enter(Entry::Debug(1))
    } else {
        Event::Instruction
    }
}

fn line_or(i: u32, c: Control) -> Event
    ensures { result ≡ line_or i c }
{
    if i < 6 {
        Event::Enter(Entry::External(i))
    } else {
        break_or(c)
    }
}

// IE is 1 and IP is 0.
fn is_open(p: u32) -> bool
    ensures { result ≡ (on p 5 && not (on p 3)) }
{
    word::is_on(p, 5) && !word::is_on(p, 3)
}

fn choose_any(t: u32, c: Control) -> Event
    ensures { result ≡ chosen t c }
{
    if is_open(c.psw) {
        if c.pending && word::is_on(c.psw, 4) {
            return Event::Enter(Entry::Timer);
        }
        return line_or(lowest_line(t, c.psw), c);
    }
    break_or(c)
}

// Nothing rare can happen: no line is high, no breakpoint is enabled, and no timer pends.
fn is_calm(t: u32, c: Control) -> bool
    ensures { result ≡ true → chosen t c ≡ Event.Instruction }
{
    t == 0 && word::field(c.hwdbg, 2, 2) == 0 && !c.pending
}

pub fn choose(t: u32, c: Control) -> Event
    ensures { result ≡ chosen t c }
{
    if is_calm(t, c) {
        Event::Instruction
    } else {
        choose_any(t, c)
    }
}
