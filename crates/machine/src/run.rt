// A run: refusals, or steps until the budget is used up or one stops.
ghost use Rattle.std.specs.Prelude.{◌≡◌, ℕ, ◌≤◌, length};
ghost use Rattle.marks.specs.Memory.{bits};
ghost use Rattle.machine.specs.Run.{steps_of, run_of};

use crate::refusals::judge_all;
use crate::registers::put;
use crate::step::{begin, halt, low_byte, make_step};
use crate::{Ended, State};
use cpu::Control;
use instruction::{Reply, Val};

fn end_at(state: State, steps: usize, reply: Reply) -> Ended
    ensures { result ≡ record { state = state; steps = steps; reply = reply; cycles = state.control.cycles } }
{
    Ended {
        state,
        steps,
        reply,
        cycles: state.control.cycles,
    }
}

// The loop reads its own arrays: an array that is passed to be read at an index is copied. Most steps leave the mark of the register that they write as it
// was, and then its value alone is put where it lies; else both arrays are passed and returned.
fn steps(b: usize, t: &[u8], s: State, m: &mut [u8], k: &mut [u8]) -> Ended
    requires { b ≤ length t.now }
    ensures value { result ≡ (steps_of b 0 t.now s m.old (bits k.old)).ended }
    ensures m_after { m.new ≡ (steps_of b 0 t.now s m.old (bits k.old)).mem }
    ensures k_after { bits k.new ≡ (steps_of b 0 t.now s m.old (bits k.old)).marks }
{
    let mut regs = s.regs;
    let mut marks = s.marks;
    let mut flags = s.flags;
    let mut control = s.control;
    for n in 0..b {
        let g = begin(u32::from(t[n]), control, m, k);
        let lo = low_byte(g);
        let i = (lo / 16) as usize;
        let j = (lo % 16) as usize;
        let x = Val {
            value: regs[i],
            mark: marks[i],
        };
        let y = Val {
            value: regs[j],
            mark: marks[j],
        };
        let out = make_step(g, x, y, flags, control, m, k);
        match out {
            Err(h) => match halt(h, control) {
                Err(reply) => {
                    return end_at(
                        State {
                            regs,
                            marks,
                            flags,
                            control,
                        },
                        n,
                        reply,
                    );
                }
                Ok(entered) => control = entered,
            },
            Ok(d) => {
                flags = d.flags;
                control = d.control;
                if d.reg < 16 {
                    let z = d.reg as usize;
                    if marks[z] == d.mark {
                        regs[z] = d.value;
                    } else {
                        regs = put(regs, d.reg, d.value);
                        marks = put(marks, d.reg, d.mark);
                    }
                }
            }
        }
    }
    end_at(
        State {
            regs,
            marks,
            flags,
            control,
        },
        b,
        Reply::Budget,
    )
}

// A run over any memory, marks, state, tape and budget.
pub fn run(b: usize, t: &[u8], s: State, m: &mut [u8], k: &mut [u8]) -> Ended
    ensures value { result ≡ (run_of b t.now s m.old (bits k.old)).ended }
    ensures m_after { m.new ≡ (run_of b t.now s m.old (bits k.old)).mem }
    ensures k_after { bits k.new ≡ (run_of b t.now s m.old (bits k.old)).marks }
{
    match judge_all(b, t, s, m, k) {
        Err(reply) => end_at(s, 0, reply),
        Ok(()) => steps(b, t, s, m, k),
    }
}
