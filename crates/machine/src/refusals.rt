// Refusals 1 to 6.
ghost use Rattle.std.specs.Prelude.{◌≡◌, ℕ};
ghost use Rattle.marks.specs.Memory.{bits};
ghost use Rattle.machine.specs.State.{out_of_form};
ghost use Rattle.machine.specs.Run.{bad_length, judge};

use crate::State;
use cpu::Control;
use instruction::Reply;

fn is_bad_length(n: usize) -> bool
    ensures { result ≡ bad_length n }
{
    n == 0 || 65536 < n || n % 4 != 0
}

fn is_out_of_form(c: Control) -> bool
    ensures { result ≡ out_of_form c }
{
    c.pc % 2 == 1
        || word::is_on(c.psw, 12)
        || word::field(c.hwdbg, 0, 2) != 3
        || 511 < c.hwdbg
        || c.pending && 0 < c.timer
}

pub fn judge_all(b: usize, t: &[u8], s: State, m: &[u8], k: &[u8]) -> Result<(), Reply>
    ensures { result ≡ judge b t.now s m.now (bits k.now) }
{
    let n = m.len();
    if is_bad_length(n) {
        return Err(Reply::MemoryLength);
    }
    if marks::memory::is_bad_room(n, k) {
        return Err(Reply::MarkLength);
    }
    if marks::memory::has_bad_mark(n, k) {
        return Err(Reply::MarkPastEnd);
    }
    if is_out_of_form(s.control) {
        return Err(Reply::Form);
    }
    if t.len() < b {
        return Err(Reply::TapeLength);
    }
    if word::has_above(63, &t[..b]) {
        return Err(Reply::TapeByte);
    }
    Ok(())
}
