// Entries, breakpoints, watchpoints and the timer.
#![tactic(auto, unfolding(crate::specs::Entries::enter, crate::specs::Entries::entered, crate::specs::Entries::is_break, crate::specs::Entries::watch_hit, crate::specs::Entries::watch_entry, crate::specs::Entries::fallen, crate::specs::Entries::passed, crate::specs::Cycles::entry_cost))]

ghost use Rattle.std.specs.Prelude.{◌≡◌, ◌-◌, true, ◌&&◌, ◌||◌, ◌==◌, if◌then◌else◌, Option, Some, None, nat_le, nat_lt};
ghost use Rattle.word.specs.Bits.{with_bit};
ghost use Rattle.cpu.specs.Control.{with_psw, with_timer};
ghost use Rattle.cpu.specs.Entries.{vector, enter, entered, is_break, watch_hit, watch_entry, fallen, passed};
ghost use Rattle.cpu.specs.Cycles.{entry_cost};
ghost use Rattle.cpu.specs.Exec.{onward};
ghost use Rattle.cpu.specs.declared.Entry.{Entry};

use crate::effects::go_on;
use crate::places::{
    with_cycles, with_hwdbg, with_ipc, with_pc, with_pending, with_psw, with_timer,
};
use crate::{Control, Entry};
use word::ByteAddr;

fn vector_at(low: u32, c: Control) -> ByteAddr
    ensures { result ≡ vector low c }
{
    ByteAddr(word::with_field(c.ibase, 0, 8, low))
}

fn enter_at(low: u32, c: Control) -> Control
    ensures { result ≡ enter low c }
{
    let p = word::with_bit(c.psw, 6, word::is_on(c.psw, 3));
    let on = with_psw(c, word::with_bit(p, 3, true));
    with_pc(with_ipc(on, c.pc), vector_at(low, c))
}

pub fn enter_swint(n: u32, c: Control) -> Control
    ensures { result ≡ entered (Entry.Swint n) c }
{
    let p = word::with_field(c.psw, 16, 4, n);
    enter_at(4, with_psw(c, word::with_bit(p, 0, true)))
}

fn enter_debug(hit: u32, c: Control) -> Control
    ensures { result ≡ entered (Entry.Debug hit) c }
{
    let p = word::with_field(c.psw, 16, 4, 15);
    let clear = with_psw(c, word::with_bit(p, 0, false));
    enter_at(4, with_hwdbg(clear, word::with_field(c.hwdbg, 6, 3, hit)))
}

fn enter_timer(c: Control) -> Control
    ensures { result ≡ entered Entry.Timer c }
{
    let t = with_psw(c, word::with_bit(c.psw, 2, true));
    enter_at(8, with_pending(t, false))
}

fn enter_external(i: u32, c: Control) -> Control
    ensures { result ≡ entered (Entry.External i) c }
{
    let p = word::with_field(c.psw, 26, 6, word::lsl(1, i));
    enter_at(12, with_psw(c, word::with_bit(p, 1, true)))
}

// A bus error's bit of PSW says whether a fetch or data met it.
fn enter_error(bit: u32, c: Control) -> Control
    ensures { result ≡ enter 16 (with_psw c (with_bit c.psw bit true)) }
{
    enter_at(16, with_psw(c, word::with_bit(c.psw, bit, true)))
}

// A fetch outside memory.
pub fn fetch_error(c: Control) -> Control
    ensures { result ≡ entered Entry.FetchError c }
{
    enter_error(15, c)
}

// Data outside memory: the entry is made at the next instruction.
pub fn data_error(c: Control) -> Control
    ensures { result ≡ entered Entry.DataError (onward 2 c) }
{
    enter_error(14, go_on(2, c))
}

pub fn enter(e: Entry, c: Control) -> Control
    ensures { result ≡ entered e c }
{
    match e {
        Entry::Nothing => c,
        Entry::Swint(n) => enter_swint(n, c),
        Entry::Debug(hit) => enter_debug(hit, c),
        Entry::Timer => enter_timer(c),
        Entry::External(i) => enter_external(i, c),
        Entry::FetchError => enter_error(15, c),
        Entry::DataError => enter_error(14, c),
    }
}

fn is_hit(enabled: bool, a: u32, b: u32) -> bool
    ensures { result ≡ (enabled && a == b) }
{
    enabled && a == b
}

pub fn has_break(c: Control) -> bool
    ensures { result ≡ is_break c }
{
    // Both are asked first: with `||` between the two calls the machine's loop costs 10 instructions a step more.
    let zero = is_hit(word::is_on(c.hwdbg, 2), c.bp0, c.pc);
    let one = is_hit(word::is_on(c.hwdbg, 3), c.bp1, c.pc);
    zero || one
}

fn watch_hit(a: ByteAddr, c: Control) -> u32
    ensures { result ≡ watch_hit a c }
{
    let zero = is_hit(word::is_on(c.hwdbg, 4), c.wp0, a.0);
    let one = is_hit(word::is_on(c.hwdbg, 5), c.wp1, a.0);
    u32::from(zero) * 2 + u32::from(one) * 4
}

// Mostly no watchpoint is enabled, and then none is compared.
#[tactic(auto, unfolding(crate::specs::Entries::watch_hit), using(crate::proofs::Laws::unwatched))]
fn hit_at(a: ByteAddr, c: Control) -> Option<u32>
    ensures { result ≡ (if nat_lt 0 (watch_hit a c) then Some (watch_hit a c) else None) }
{
    if word::field(c.hwdbg, 4, 2) == 0 {
        return None;
    }
    let hit = watch_hit(a, c);
    if 0 < hit { Some(hit) } else { None }
}

pub fn watch(a: ByteAddr, c: Control) -> Entry
    ensures { result ≡ watch_entry a c }
{
    hit_at(a, c).map_or(Entry::Nothing, Entry::Debug)
}

// The same entry made, or none. An entry that is made where it is known costs the machine's loop less than one that is matched again.
pub fn enter_watch(a: ByteAddr, c: Control) -> Control
    ensures { result ≡ entered (watch_entry a c) c }
{
    match hit_at(a, c) {
        Some(hit) => enter_debug(hit, c),
        None => c,
    }
}

// `saturating_sub` for the two branches costs the machine's loop 4 to 7 instructions a step.
fn fall_by(n: u32, c: Control) -> Control
    ensures { result ≡ with_timer c (c.timer - n) (c.pending || nat_le c.timer n) }
{
    if c.timer <= n {
        with_timer(c, 0, true)
    } else {
        with_timer(c, c.timer - n, c.pending)
    }
}

// What a watchpoint's entry adds to its load or store.
pub fn watch_cost(a: ByteAddr, c: Control) -> u8
    ensures { result ≡ entry_cost (watch_entry a c) }
{
    if hit_at(a, c).is_some() { 4 } else { 0 }
}

// What an entry adds to its instruction's cost.
pub fn entry_cost(e: Entry) -> u8
    ensures { result ≡ entry_cost e }
{
    match e {
        Entry::Nothing | Entry::Swint(_) => 0,
        Entry::Debug(_) | Entry::Timer | Entry::External(_) => 4,
        Entry::FetchError | Entry::DataError => 4,
    }
}

// A match on TIMER costs the machine's loop fewer instructions than a comparison.
fn fall(te: bool, n: u32, c: Control) -> Control
    ensures { result ≡ fallen te n c }
{
    let t = c.timer;
    if te {
        match t {
            0 => c,
            _ => fall_by(n, c),
        }
    } else {
        c
    }
}

// A step of cost n goes by.
pub fn pass(te: bool, n: u32, c: Control) -> Control
    ensures { result ≡ passed te n c }
{
    with_cycles(fall(te, n, c), c.cycles.wrapping_add(n))
}
