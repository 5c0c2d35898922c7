// One step: its start, which no register takes part in, and one instruction from its first half on.
ghost use Rattle.std.specs.Prelude.{◌≡◌, ℕ};
ghost use Rattle.word.specs.Bits.{on};
ghost use Rattle.cpu.specs.Entries.{entered, passed};
ghost use Rattle.cpu.specs.Cycles.{entry_cost};
ghost use Rattle.marks.specs.Memory.{bits};
ghost use Rattle.machine.specs.Step.{stored_to, marked_to, entry_by, done_of};
ghost use Rattle.machine.specs.Parts.{halted_to, begun_of, act_out, act_mem, act_marks, half_act, low_byte, begun_out, begun_mem, begun_marks};
ghost use Rattle.machine.specs.declared.Begun.{Begun};

use crate::choice::choose;
use crate::{Begun, Done, Event};
use cpu::{Control, Effect, Entry};
use instruction::{Act, Halt, Reach, Reply, Val};
use marks::{Flags, Taint};
use word::ByteAddr;

fn enter(e: Entry, c: Control) -> Begun
    ensures { result ≡ Begun.Enter (passed (on c.psw 4) (entry_cost e) (entered e c)) }
{
    let cost = cpu::entry_cost(e) as u32;
    Begun::Enter(cpu::pass(word::is_on(c.psw, 4), cost, cpu::enter(e, c)))
}

// What comes of an instruction that is not done, from control part c on.
pub fn halt(h: Halt, c: Control) -> Result<Control, Reply>
    ensures { result ≡ halted_to h c }
{
    let te = word::is_on(c.psw, 4);
    match h {
        Halt::FetchOutside => Ok(cpu::pass(te, 4, cpu::fetch_error(c))),
        Halt::FetchMarked => Err(Reply::FetchMarked),
        Halt::NoInstruction => Err(Reply::NoInstruction),
        Halt::MarkedOperand => Err(Reply::MarkedOperand),
        Halt::DataOutside => Ok(cpu::pass(te, 4, cpu::data_error(c))),
    }
}

// All of a step that no register takes part in.
pub fn begin(t: u32, c: Control, m: &[u8], mk: &[u8]) -> Begun
    ensures { result ≡ begun_of t c m.now (bits mk.now) }
{
    match choose(t, c) {
        Event::Enter(x) => enter(x, c),
        Event::Instruction => match instruction::fetch::first_half(ByteAddr(c.pc), m, mk) {
            Err(h) => Begun::Halted(h),
            Ok(h) => Begun::Half((h / 256) as u8, (h % 256) as u8),
        },
    }
}

pub fn entry_of(r: Reach, c: Control) -> Entry
    ensures { result ≡ entry_by r c }
{
    match r {
        Reach::Nowhere => Entry::Nothing,
        Reach::Reads(_, a) | Reach::Writes(_, a) => cpu::watch(a, c),
        Reach::Raises(n) => Entry::Swint(n),
    }
}

// The same entry made. A match on what is reached costs the loop less than one on the entry. Here, in cost_by and in write_at each way has an arm of its
// own: with alternatives in a pattern the images of bench/ take 100 to 131 instructions a step, in place of 84 to 106.
fn enter_by(r: Reach, c: Control) -> Control
    ensures { result ≡ entered (entry_by r c) c }
{
    match r {
        Reach::Nowhere => c,
        Reach::Reads(_, a) => cpu::enter_watch(a, c),
        Reach::Writes(_, a) => cpu::enter_watch(a, c),
        Reach::Raises(n) => cpu::enter_swint(n, c),
    }
}

// What that entry adds to the instruction's cost.
fn cost_by(r: Reach, c: Control) -> u8
    ensures { result ≡ entry_cost (entry_by r c) }
{
    match r {
        Reach::Nowhere => 0,
        Reach::Reads(_, a) => cpu::watch_cost(a, c),
        Reach::Writes(_, a) => cpu::watch_cost(a, c),
        Reach::Raises(_) => 0,
    }
}

// The flags go over one by one: `flags: t.flags` costs 9 instructions a step more.
fn finish(c: Control, e: Effect, t: Taint, r: Reach) -> Done
    ensures { result ≡ done_of c e t r }
{
    let made = e.control;
    let te = word::is_on(c.psw, 4) && !e.wrote;
    let cost = e.cost as u32 + cost_by(r, made) as u32;
    Done {
        control: cpu::pass(te, cost, enter_by(r, made)),
        flags: Flags {
            tf: t.flags.tf,
            cy: t.flags.cy,
        },
        reg: e.reg,
        value: e.value,
        mark: t.reg,
    }
}

fn write_at(r: Reach, x: Val, m: &mut [u8], mk: &mut [u8])
    ensures m_after { m.new ≡ stored_to r x.value m.old }
    ensures mk_after { bits mk.new ≡ marked_to r x.mark (bits mk.old) }
{
    match r {
        Reach::Nowhere => {}
        Reach::Reads(_, _) => {}
        Reach::Writes(w, a) => {
            word::store(w, m, a, x.value);
            marks::memory::set_marks(w, mk, a, x.mark);
        }
        Reach::Raises(_) => {}
    }
}

fn act_step(a: Act, x: Val, c: Control, m: &mut [u8], mk: &mut [u8]) -> Result<Done, Halt>
    ensures value { result ≡ act_out a c }
    ensures m_after { m.new ≡ act_mem a x m.old }
    ensures mk_after { bits mk.new ≡ act_marks a x (bits mk.old) }
{
    match a {
        Act::Halted(h) => Err(h),
        Act::Does(e, t, r) => {
            write_at(r, x, m, mk);
            Ok(finish(c, e, t, r))
        }
    }
}

// One instruction from the bytes of its first half and the registers that the second byte's digits name: an instruction that reads fewer does not look at
// the others. The bytes come apart: put together before the kind is known, they cost each step a register of the processor.
fn half_step(
    hi: u8,
    lo: u8,
    x: Val,
    y: Val,
    f: Flags,
    c: Control,
    m: &mut [u8],
    mk: &mut [u8],
) -> Result<Done, Halt>
    ensures value { result ≡ act_out (half_act hi lo x y f c m.old (bits mk.old)) c }
    ensures m_after { m.new ≡ act_mem (half_act hi lo x y f c m.old (bits mk.old)) x m.old }
    ensures mk_after { bits mk.new ≡ act_marks (half_act hi lo x y f c m.old (bits mk.old)) x (bits mk.old) }
{
    let kind = isa::kind_of(hi);
    let half = hi as u16 * 256 + lo as u16;
    let i = instruction::fetch::rest_at(kind, half, ByteAddr(c.pc), m, mk)?;
    let a = instruction::classes::act_on(i, x, y, f, c, m, mk);
    act_step(a, x, c, m, mk)
}

// The byte that names the registers that are read; where no instruction is made, 0, as the definition `low_byte` says.
pub fn low_byte(g: Begun) -> u8
    ensures { result ≡ low_byte g }
{
    match g {
        Begun::Halted(_) => 0,
        Begun::Enter(_) => 0,
        Begun::Half(_, lo) => lo,
    }
}

// The rest of a step from its start on, with the registers that the low byte names. An entry writes no register.
pub fn make_step(
    g: Begun,
    x: Val,
    y: Val,
    f: Flags,
    c: Control,
    m: &mut [u8],
    mk: &mut [u8],
) -> Result<Done, Halt>
    ensures value { result ≡ begun_out g x y f c m.old (bits mk.old) }
    ensures m_after { m.new ≡ begun_mem g x y f c m.old (bits mk.old) }
    ensures mk_after { bits mk.new ≡ begun_marks g x y f c m.old (bits mk.old) }
{
    match g {
        Begun::Halted(h) => Err(h),
        Begun::Enter(control) => Ok(Done {
            control,
            flags: f,
            reg: cpu::NO_REG,
            value: 0,
            mark: false,
        }),
        Begun::Half(hi, lo) => half_step(hi, lo, x, y, f, c, m, mk),
    }
}
