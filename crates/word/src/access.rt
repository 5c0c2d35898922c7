// Bytes, halves and words in memory.
ghost use Rattle.std.specs.Prelude.{◌≡◌, ◌≤◌, if◌then◌else◌};
ghost use Rattle.word.specs.Bytes.{bytes_of, inside, load, store, load_of, store_of, any_above};

use crate::{ByteAddr, Width};

pub fn bytes(w: Width) -> u32
    ensures { (result ≡ bytes_of w) × (result ≤ 4) }
{
    w as u32
}

pub fn is_inside(w: Width, m: &[u8], at: ByteAddr) -> bool
    ensures { result ≡ inside m.now at (bytes_of w) }
{
    let end = at.0 as usize + bytes(w) as usize;
    end <= m.len()
}

// The number of the n bytes from `at` on.
fn load_bytes(m: &[u8], at: u32, n: u32) -> u32
    requires { n ≤ 4 }
    ensures { result ≡ (if inside m.now (record { 0 = at }) n then load n m.now at else 0) }
{
    let start = at as usize;
    let end = start + n as usize;
    if m.len() < end {
        return 0;
    }
    let mut v = 0;
    for x in &m[start..end] {
        v = v * 256 + *x as u32;
    }
    v
}

fn store_bytes(m: &mut [u8], at: u32, n: u32, v: u32)
    requires { n ≤ 4 }
    ensures { m.new ≡ (if inside m.old (record { 0 = at }) n then store n m.old at v else m.old) }
{
    let start = at as usize;
    let end = start + n as usize;
    if m.len() < end {
        return;
    }
    let mut x = v;
    for i in (start..end).rev() {
        m[i] = (x % 256) as u8;
        x /= 256;
    }
}

// The width is matched, so that each loop has its number of bytes: with one that is not known an access costs ten instructions and more.
pub fn load(w: Width, m: &[u8], at: ByteAddr) -> u32
    ensures { result ≡ load_of w m.now at }
{
    let a = at.0;
    match w {
        Width::Byte => load_bytes(m, a, 1),
        Width::Half => load_bytes(m, a, 2),
        Width::Word => load_bytes(m, a, 4),
    }
}

pub fn store(w: Width, m: &mut [u8], at: ByteAddr, v: u32)
    ensures { m.new ≡ store_of w m.old at v }
{
    let a = at.0;
    match w {
        Width::Byte => store_bytes(m, a, 1, v),
        Width::Half => store_bytes(m, a, 2, v),
        Width::Word => store_bytes(m, a, 4, v),
    }
}

// A byte above a limit. All are looked at, so that the compiler takes many at once.
pub fn has_above(limit: u8, k: &[u8]) -> bool
    ensures { result ≡ any_above limit k.now }
{
    let mut found = false;
    for x in k {
        found |= limit < *x;
    }
    found
}
