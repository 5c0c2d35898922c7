// The marks of memory: one bit for each byte, lowest address in the lowest bit.
ghost use Rattle.std.specs.Prelude.{◌≡◌, ◌+◌, ◌<◌, ◌≤◌};
ghost use Rattle.word.specs.Bits.{num, on, put};
ghost use Rattle.marks.specs.Memory.{bits, mark_at, mark_put, any_mark, put_marks, marked_at, mark_all, bad_room, bad_mark};
ghost use Rattle.marks.specs.Parts.{is_clear};

use word::{ByteAddr, Width};

// ---- one bit of a byte, by shift and mask: the project's rule for marks (docs/SENTENCES.md). `word::with_bit` replaces a field by division instead.

fn is_set(b: u8, s: u32) -> bool
    requires { s < 8 }
    ensures { result ≡ on b s }
{
    (b as u32 >> s) & 1 == 1
}

fn with_bit(b: u8, s: u32, m: bool) -> u8
    requires { s < 8 }
    ensures { result ≡ put b s 1 (num m) }
{
    let one = 1u32 << s;
    if m {
        return (b as u32 | one) as u8;
    }
    (b as u32 & (255 - one)) as u8
}

// ---- one mark

fn is_marked_at(k: &[u8], i: usize) -> bool
    ensures { result ≡ mark_at (bits k.now) i }
{
    let j = i / 8;
    j < k.len() && is_set(k[j], (i % 8) as u32)
}

fn put_mark_at(k: &mut [u8], i: usize, m: bool)
    ensures { bits k.new ≡ mark_put (bits k.old) i m }
{
    let j = i / 8;
    if j < k.len() {
        k[j] = with_bit(k[j], (i % 8) as u32, m);
    }
}

// ---- the n marks from a position on

// One byte of the slice holds all of them, and it is 0: most often so, and then there is nothing more to look at.
fn is_clear(k: &[u8], at: u32, n: u32) -> bool
    requires { n ≤ 8 }
    ensures { result ≡ is_clear n k.now at }
{
    let j = (at / 8) as usize;
    at % 8 + n <= 8 && j < k.len() && k[j] == 0
}

fn any_one_by_one(k: &[u8], at: usize, n: usize) -> bool
    requires { at + n ≤ 18446744073709551616 }
    ensures { result ≡ any_mark n (bits k.now) at }
{
    (0..n).any(|i| is_marked_at(k, at + i))
}

fn put_one_by_one(k: &mut [u8], at: usize, n: usize, m: bool)
    requires { at + n ≤ 18446744073709551616 }
    ensures { bits k.new ≡ put_marks n (bits k.old) at m }
{
    for i in 0..n {
        put_mark_at(k, at + i, m);
    }
}

fn any_marked(k: &[u8], at: u32, n: u32) -> bool
    requires { n ≤ 8 }
    ensures { result ≡ any_mark n (bits k.now) at }
{
    if is_clear(k, at, n) {
        return false;
    }
    any_one_by_one(k, at as usize, n as usize)
}

fn put_marks(k: &mut [u8], at: u32, n: u32, m: bool)
    requires { n ≤ 8 }
    ensures { bits k.new ≡ put_marks n (bits k.old) at m }
{
    if !m && is_clear(k, at, n) {
        return;
    }
    put_one_by_one(k, at as usize, n as usize, m)
}

pub fn is_marked(w: Width, k: &[u8], at: ByteAddr) -> bool
    ensures { result ≡ marked_at w (bits k.now) at }
{
    any_marked(k, at.0, word::bytes(w))
}

pub fn set_marks(w: Width, k: &mut [u8], at: ByteAddr, m: bool)
    ensures { bits k.new ≡ mark_all w (bits k.old) at m }
{
    put_marks(k, at.0, word::bytes(w), m)
}

// However many, from any place on.
pub fn set_range(k: &mut [u8], at: ByteAddr, n: u32, m: bool)
    ensures { bits k.new ≡ put_marks n (bits k.old) at.0 m }
{
    put_one_by_one(k, at.0 as usize, n as usize, m)
}

// ---- refusals 2 and 3, where n is memory's length

pub fn is_bad_room(n: usize, k: &[u8]) -> bool
    ensures { result ≡ bad_room n (bits k.now) }
{
    k.len() != n.div_ceil(8)
}

pub fn has_bad_mark(n: usize, k: &[u8]) -> bool
    ensures { result ≡ bad_mark n (bits k.now) }
{
    let j = n / 8;
    j < k.len() && 0 < k[j] >> ((n % 8) as u32)
}
