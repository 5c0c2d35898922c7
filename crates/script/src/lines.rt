// What each line of an input does.
ghost use Rattle.std.specs.Prelude.{◌≡◌, true, ◌+◌, ◌<◌, leb, set};
ghost use Rattle.std.proofs.lemmas.List.Edits.{sets};
ghost use Rattle.marks.specs.Memory.{bits, put_marks};
ghost use Rattle.script.specs.Line.{size_of, budget_of, is_even, are_bytes, pairs_of, put_of, count_of, mark_of, first_of, body_of, line_of};

use crate::{Memory, Phase};
use word::ByteAddr;

// Two, as the definitions `size_of` and `budget_of` are; each makes a phase of its own.
fn size_in(r: Option<u32>) -> Phase
    ensures { result ≡ size_of r }
{
    match r {
        Some(n) if n <= 16384 => Phase::Body(n),
        _ => Phase::Bad,
    }
}

fn budget_in(r: Option<u32>, n: u32) -> Phase
    ensures { result ≡ budget_of r n }
{
    match r {
        Some(b) if b <= 16384 => Phase::Done(n, b),
        _ => Phase::Bad,
    }
}

pub fn is_even(n: usize) -> bool
    ensures { result ≡ is_even n }
{
    n % 2 == 0
}

fn are_bytes(h: &[u8]) -> bool
    ensures { result ≡ are_bytes h.now }
{
    let n = h.len();
    text::are_hex(h) && is_even(n) && 2 <= n && n <= 32
}

fn put_byte(m: &mut [u8], at: usize, b: u8)
    ensures { m.new ≡ set m.old at b }
{
    if at < m.len() {
        m[at] = b;
    }
}

fn put_bytes(a: u32, h: &[u8], m: &mut [u8])
    ensures { m.new ≡ sets m.old a (pairs_of h.now) }
{
    // By number: it tells the place in memory too, which would be counted beside a pattern of two.
    for i in 0..h.len() / 2 {
        put_byte(m, a as usize + i, text::pair(h[2 * i], h[2 * i + 1]));
    }
}

pub fn is_inside(a: u32, c: usize, n: u32) -> bool
    requires { c < 9223372036854775808 }
    ensures { result ≡ leb (a + c) n }
{
    a as usize + c <= n as usize
}

#[tactic(auto, unfolding(crate::specs::Line::put_of))]
fn put_line(r: Option<u32>, h: &[u8], n: u32, memory: &mut Memory) -> Phase
    ensures value { result ≡ (put_of r h.now n memory.old.bytes (bits memory.old.marks)).phase }
    ensures bytes_after { memory.new.bytes ≡ (put_of r h.now n memory.old.bytes (bits memory.old.marks)).mem }
    ensures marks_after { bits memory.new.marks ≡ (put_of r h.now n memory.old.bytes (bits memory.old.marks)).marks }
{
    match r {
        Some(a) if are_bytes(h) && is_inside(a, h.len() / 2, n) => {
            put_bytes(a, h, &mut memory.bytes);
            Phase::Body(n)
        }
        _ => Phase::Bad,
    }
}

#[tactic(auto, unfolding(crate::specs::Line::count_of, marks::specs::Memory::put_marks))]
fn count_line(a: u32, r: Option<u32>, n: u32, memory: &mut Memory) -> Phase
    ensures value { result ≡ (count_of a r n memory.old.bytes (bits memory.old.marks)).phase }
    ensures bytes_after { memory.new.bytes ≡ (count_of a r n memory.old.bytes (bits memory.old.marks)).mem }
    ensures marks_after { bits memory.new.marks ≡ (count_of a r n memory.old.bytes (bits memory.old.marks)).marks }
{
    match r {
        Some(0) => Phase::Body(n),
        Some(c) if is_inside(a, c as usize, n) => {
            marks::memory::set_range(&mut memory.marks, ByteAddr(a), c, true);
            Phase::Body(n)
        }
        _ => Phase::Bad,
    }
}

#[tactic(auto, unfolding(crate::specs::Line::mark_of))]
fn mark_line(r: Option<u32>, c: Option<u32>, n: u32, memory: &mut Memory) -> Phase
    ensures value { result ≡ (mark_of r c n memory.old.bytes (bits memory.old.marks)).phase }
    ensures bytes_after { memory.new.bytes ≡ (mark_of r c n memory.old.bytes (bits memory.old.marks)).mem }
    ensures marks_after { bits memory.new.marks ≡ (mark_of r c n memory.old.bytes (bits memory.old.marks)).marks }
{
    match r {
        None => Phase::Bad,
        Some(a) => count_line(a, c, n, memory),
    }
}

#[tactic(auto, unfolding(crate::specs::Line::first_of))]
fn first_line(l: &[u8]) -> Phase
    ensures { result ≡ first_of l.now }
{
    if text::is_same(text::before(l), b"mem") {
        return size_in(text::decimal(text::beyond(l)));
    }
    Phase::Bad
}

#[tactic(auto, unfolding(crate::specs::Line::body_of))]
fn body_line(w: &[u8], r: &[u8], n: u32, memory: &mut Memory) -> Phase
    ensures value { result ≡ (body_of w.now r.now n memory.old.bytes (bits memory.old.marks)).phase }
    ensures bytes_after { memory.new.bytes ≡ (body_of w.now r.now n memory.old.bytes (bits memory.old.marks)).mem }
    ensures marks_after { bits memory.new.marks ≡ (body_of w.now r.now n memory.old.bytes (bits memory.old.marks)).marks }
{
    if text::is_same(w, b"at") {
        return put_line(text::address(text::before(r)), text::beyond(r), n, memory);
    }
    if text::is_same(w, b"mark") {
        let c = text::decimal(text::beyond(r));
        return mark_line(text::address(text::before(r)), c, n, memory);
    }
    if text::is_same(w, b"run") {
        return budget_in(text::decimal(r), n);
    }
    Phase::Bad
}

#[tactic(auto, unfolding(crate::specs::Line::line_of))]
pub fn whole_line(p: Phase, l: &[u8], memory: &mut Memory) -> Phase
    ensures value { result ≡ (line_of p l.now memory.old.bytes (bits memory.old.marks)).phase }
    ensures bytes_after { memory.new.bytes ≡ (line_of p l.now memory.old.bytes (bits memory.old.marks)).mem }
    ensures marks_after { bits memory.new.marks ≡ (line_of p l.now memory.old.bytes (bits memory.old.marks)).marks }
{
    match p {
        Phase::First => first_line(l),
        Phase::Body(n) => body_line(text::before(l), text::beyond(l), n, memory),
        Phase::Done(_, _) | Phase::Bad => Phase::Bad,
    }
}
