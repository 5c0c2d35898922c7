// The line that a step shows, by value. It changes nothing: a run with a budget of 1 makes the step itself.
#![tactic(auto)]

ghost use Rattle.std.specs.Prelude.{◌≡◌, get_or};
ghost use Rattle.cpu.specs.Control.{pc_of};
ghost use Rattle.marks.specs.Memory.{bits};
ghost use Rattle.instruction.specs.Fetch.{fetch_of};
ghost use Rattle.instruction.specs.Act.{reach_of};
ghost use Rattle.machine.specs.State.{value_at};
ghost use Rattle.machine.specs.Step.{data_of, instr_step, fetch_step, step_of};
ghost use Rattle.trace.specs.Seen.{seen_in};
ghost use Rattle.trace.specs.Parts.{entry_line, seen_halt, seen_act};

use cpu::{Control, Entry};
use instruction::{Act, Halt, Reach, Val};
use isa::Instr;
use machine::{Event, Line, State};
use word::{ByteAddr, Width};

// A register's value or mark; `none` where there is no such register.
fn get<T: Copy>(all: [T; 16], i: u32, none: T) -> T
    ensures { result ≡ get_or all i none }
{
    if i < 16 { all[i as usize] } else { none }
}

fn data_of(r: Reach) -> Option<ByteAddr>
    ensures { result ≡ data_of r }
{
    match r {
        Reach::Reads(_, a) | Reach::Writes(_, a) => Some(a),
        Reach::Nowhere | Reach::Raises(_) => None,
    }
}

// The data address of an instruction whose base is v.
fn address_of(i: Instr, v: u32, c: Control) -> Option<ByteAddr>
    ensures { result ≡ data_of (reach_of i v c) }
{
    match i {
        Instr::Ldrpc(_, n) => Some(cpu::data_address(Width::Word, c.pc, n)),
        Instr::Load(w, _, n, _) | Instr::Store(w, _, n, _) => Some(cpu::data_address(w, v, n)),
        _ => None,
    }
}

fn entry_line(entry: Entry, address: Option<ByteAddr>, c: Control) -> Option<Line>
    ensures { result ≡ entry_line entry address c }
{
    Some(Line {
        pc: ByteAddr(c.pc),
        entry,
        address,
    })
}

fn show_halt(h: Halt, address: Option<ByteAddr>, c: Control) -> Option<Line>
    ensures { result ≡ seen_halt h address c }
{
    match h {
        Halt::FetchOutside => entry_line(Entry::FetchError, None, c),
        Halt::DataOutside => entry_line(Entry::DataError, address, c),
        Halt::FetchMarked | Halt::NoInstruction | Halt::MarkedOperand => None,
    }
}

fn show_act(a: Act, address: Option<ByteAddr>, c: Control) -> Option<Line>
    ensures { result ≡ seen_act a address c }
{
    match a {
        Act::Halted(h) => show_halt(h, address, c),
        Act::Does(e, _, r) => entry_line(machine::entry_of(r, e.control), data_of(r), c),
    }
}

fn value_at(s: State, i: u32) -> Val
    ensures { result ≡ value_at s i }
{
    Val {
        value: get(s.regs, i, 0),
        mark: get(s.marks, i, false),
    }
}

fn show_instr(i: Instr, s: State, m: &[u8], mk: &[u8]) -> Option<Line>
    ensures { result ≡ seen_in (instr_step i s m.now (bits mk.now)) }
{
    let o = cpu::sources_of(i);
    let c = s.control;
    let x = value_at(s, o.first);
    let y = value_at(s, o.second);
    let a = instruction::classes::act_on(i, x, y, s.flags, c, m, mk);
    show_act(a, address_of(i, y.value, c), c)
}

fn show_fetch(s: State, m: &[u8], mk: &[u8]) -> Option<Line>
    ensures { result ≡ seen_in (fetch_step (fetch_of (pc_of s.control) m.now (bits mk.now)) s m.now (bits mk.now)) }
{
    match instruction::fetch::fetch(ByteAddr(s.control.pc), m, mk) {
        Err(h) => show_halt(h, None, s.control),
        Ok(i) => show_instr(i, s, m, mk),
    }
}

pub fn show(t: u32, s: State, m: &[u8], mk: &[u8]) -> Option<Line>
    ensures { result ≡ seen_in (step_of t s m.now (bits mk.now)) }
{
    match machine::choose(t, s.control) {
        Event::Enter(entry) => entry_line(entry, None, s.control),
        Event::Instruction => show_fetch(s, m, mk),
    }
}
