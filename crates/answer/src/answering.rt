// The run of what was read, and its text.
ghost use Rattle.std.specs.Prelude.{◌≡◌, ◌++◌, ◌+◌, drop};
ghost use Rattle.marks.specs.Memory.{bits};
ghost use Rattle.machine.specs.State.{fresh_state};
ghost use Rattle.machine.specs.Run.{run_of};
ghost use Rattle.script.specs.Line.{blank};
ghost use Rattle.text.specs.Pages.{page, write_on};
ghost use Rattle.answer.specs.Answer.{room_after, ran_of, ran_text, answer_by};

use crate::writing::{put_bad, put_ended};
use machine::Ended;
use script::{Memory, Phase, Reader};

// On a fresh state and a tape of zeros.
fn run_fresh(budget: u32, m: &mut [u8], k: &mut [u8]) -> Ended
    ensures value { result ≡ (run_of budget blank fresh_state m.old (bits k.old)).ended }
    ensures m_after { m.new ≡ (run_of budget blank fresh_state m.old (bits k.old)).mem }
    ensures k_after { bits k.new ≡ (run_of budget blank fresh_state m.old (bits k.old)).marks }
{
    let tape = script::zeros();
    machine::run::run(budget as usize, &tape, machine::fresh(), m, k)
}

// `m` and `k` apart, not a `Memory`: the borrow checker does not cover two slices of fields lent behind one reference, and 16,384 bytes are not copied for it.
fn run_on(size: u32, budget: u32, m: &mut [u8], k: &mut [u8]) -> Ended
    ensures value { result ≡ (ran_of size budget m.old (bits k.old)).ended }
    ensures m_after { m.new ≡ (ran_of size budget m.old (bits k.old)).mem ++ drop size m.old }
    ensures k_after { bits k.new ≡ room_after size (ran_of size budget m.old (bits k.old)).marks (bits k.old) }
{
    let n = (size as usize).min(m.len());
    let j = (size as usize).div_ceil(8).min(k.len());
    run_fresh(budget, &mut m[..n], &mut k[..j])
}

fn run_script(size: u32, budget: u32, memory: &mut Memory, out: &mut [u8]) -> usize
    ensures result_after { page out.new result ≡ write_on (ran_text size budget memory.old.bytes (bits memory.old.marks)).text (page out.old 0) }
    ensures bytes_after { memory.new.bytes ≡ (ran_text size budget memory.old.bytes (bits memory.old.marks)).mem }
    ensures marks_after { bits memory.new.marks ≡ (ran_text size budget memory.old.bytes (bits memory.old.marks)).marks }
{
    let e = run_on(size, budget, &mut memory.bytes, &mut memory.marks);
    put_ended(out, e)
}

// After the last part: the text that the program writes, from the start of `out`, and its length.
#[tactic(auto, unfolding(crate::specs::Answer::answered))]
pub fn answer(r: Reader, memory: &mut Memory, out: &mut [u8; 256]) -> usize
    ensures result_after { page out.new result ≡ write_on (answer_by r memory.old.bytes (bits memory.old.marks)).text (page out.old 0) }
    ensures bytes_after { memory.new.bytes ≡ (answer_by r memory.old.bytes (bits memory.old.marks)).mem }
    ensures marks_after { bits memory.new.marks ≡ (answer_by r memory.old.bytes (bits memory.old.marks)).marks }
{
    match r.phase {
        Phase::Done(size, budget) if r.used == 0 => run_script(size, budget, memory, out),
        _ => put_bad(out, r.number),
    }
}
