// What is written of an answer: text into `out`, from a place on; each function answers where the next byte goes.
// Part by part, as the definitions `bad_text`, `end_text`, `pc_text` and `register_line` are joined and `write_on` has it; there is no heap for a String.
ghost use Rattle.std.specs.Prelude.{◌≡◌};
ghost use Rattle.text.specs.Pages.{page, write_on};
ghost use Rattle.answer.specs.Answer.{bad_text, end_text, pc_text, register_line, register_text, registers_text, state_text, ended_text};

use machine::{Ended, State};

#[tactic(auto, using(crate::proofs::Laws::write_bad))]
pub fn put_bad(out: &mut [u8], n: u64) -> usize
    ensures { page out.new result ≡ write_on (bad_text n) (page out.old 0) }
{
    let a = text::put_all(out, 0, b"bad\t");
    let b = text::put_number(out, a, n);
    text::put_all(out, b, b"\n")
}

#[tactic(auto, using(crate::proofs::Laws::write_end))]
fn put_end(out: &mut [u8], reply: u32, steps: usize) -> usize
    ensures { page out.new result ≡ write_on (end_text reply steps) (page out.old 0) }
{
    let a = text::put_all(out, 0, b"end\t");
    let b = text::put_number(out, a, reply as u64);
    let c = text::put_all(out, b, b"\t");
    let d = text::put_number(out, c, steps as u64);
    text::put_all(out, d, b"\n")
}

#[tactic(auto, using(crate::proofs::Laws::write_pc))]
fn put_pc(out: &mut [u8], at: usize, x: u32) -> usize
    ensures { page out.new result ≡ write_on (pc_text x) (page out.old at) }
{
    let a = text::put_all(out, at, b"pc\t");
    let b = text::put_hex(out, a, x);
    text::put_all(out, b, b"\n")
}

#[tactic(auto, using(crate::proofs::Laws::write_register))]
fn put_register_line(out: &mut [u8], at: usize, i: usize, t: &[u8]) -> usize
    ensures { page out.new result ≡ write_on (register_line i t.now) (page out.old at) }
{
    let a = text::put_all(out, at, b"r");
    let b = text::put_number(out, a, i as u64);
    let c = text::put_all(out, b, b"\t");
    let d = text::put_all(out, c, t);
    text::put_all(out, d, b"\n")
}

// A marked register's content is not even looked at.
#[tactic(auto, unfolding(crate::specs::Answer::register_text, text::specs::Pages::write_on))]
fn put_register(out: &mut [u8], at: usize, i: usize, v: u32, mark: bool) -> usize
    ensures { page out.new result ≡ write_on (register_text i v mark) (page out.old at) }
{
    if mark {
        return put_register_line(out, at, i, b"********");
    }
    if v == 0 {
        return at;
    }
    put_register_line(out, at, i, &text::hex(v))
}

fn put_registers(out: &mut [u8], from: usize, regs: [u32; 16], marks: [bool; 16]) -> usize
    ensures { page out.new result ≡ write_on (registers_text 16 0 regs marks) (page out.old from) }
{
    let mut at = from;
    // By number: it is written too, and the definition `registers_text` reads both lists at it.
    for i in 0..16 {
        at = put_register(out, at, i, regs[i], marks[i]);
    }
    at
}

#[tactic(auto, using(crate::proofs::Laws::write_state))]
fn put_state(out: &mut [u8], at: usize, s: State) -> usize
    ensures { page out.new result ≡ write_on (state_text s) (page out.old at) }
{
    let a = put_pc(out, at, s.control.pc);
    put_registers(out, a, s.regs, s.marks)
}

pub fn put_ended(out: &mut [u8], e: Ended) -> usize
    ensures { page out.new result ≡ write_on (ended_text e) (page out.old 0) }
{
    let n = instruction::number(e.reply);
    let a = put_end(out, n, e.steps);
    // A refusal is told by its number, as in the definition `ended_text`.
    if n < 10 {
        return a;
    }
    put_state(out, a, e.state)
}
