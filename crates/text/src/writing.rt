// Text written into a lent room, from a place on; each function answers where the next byte goes. The libraries have no heap, so no String is filled;
// and a Display's `fmt` answers no place, while the definitions `page` and `write_on`, by which theorems as `calls_answer` (crate answer) speak, are of the room and the place.
ghost use Rattle.std.specs.Prelude.{◌≡◌};
ghost use Rattle.text.specs.Digits.{hex_text, half_text, decimal_text, signed_text};
ghost use Rattle.text.specs.Pages.{page, one_on, write_on};

use crate::{glyph, half_hex, hex};

pub fn put(out: &mut [u8], at: usize, b: u8) -> usize
    ensures { page out.new result ≡ one_on b (page out.old at) }
{
    if at < out.len() {
        out[at] = b;
        return at + 1;
    }
    at
}

// As much of a text as there is room for.
fn put_some(out: &mut [u8], from: usize, s: &[u8]) -> usize
    ensures { page out.new result ≡ write_on s.now (page out.old from) }
{
    let mut at = from;
    for b in s {
        at = put(out, at, *b);
    }
    at
}

// Room is asked for once, where there is enough for all of it.
pub fn put_all(out: &mut [u8], from: usize, s: &[u8]) -> usize
    ensures { page out.new result ≡ write_on s.now (page out.old from) }
{
    if out.len() < from {
        return from;
    }
    if out.len() - from < s.len() {
        return put_some(out, from, s);
    }
    // copy_from_slice here costs 5 % of the instructions of a listing's line.
    for (i, b) in s.iter().enumerate() {
        out[from + i] = *b;
    }
    from + s.len()
}

// A number's digits, at the end of a lent room.
fn spelled(room: &mut [u8; 20], n: u64) -> &[u8]
    ensures { result.now ≡ decimal_text n }
{
    let mut from: usize = 20;
    let mut rest = n;
    // What is left of n ends the loop, and not the room.
    while 10 <= rest {
        from -= 1;
        room[from] = glyph(rest % 10);
        rest /= 10;
    }
    from -= 1;
    room[from] = glyph(rest);
    &room[from..]
}

pub fn put_number(out: &mut [u8], at: usize, n: u64) -> usize
    ensures { page out.new result ≡ write_on (decimal_text n) (page out.old at) }
{
    if n < 10 {
        return put(out, at, glyph(n));
    }
    if n < 100 {
        let a = put(out, at, glyph(n / 10));
        return put(out, a, glyph(n % 10));
    }
    let mut room = [0u8; 20];
    put_all(out, at, spelled(&mut room, n))
}

pub fn put_signed(out: &mut [u8], at: usize, n: u32) -> usize
    ensures { page out.new result ≡ write_on (signed_text n) (page out.old at) }
{
    let signed = n.cast_signed();
    if signed < 0 {
        let a = put(out, at, b'-');
        return put_number(out, a, signed.unsigned_abs() as u64);
    }
    put_number(out, at, n as u64)
}

pub fn put_hex(out: &mut [u8], at: usize, n: u32) -> usize
    ensures { page out.new result ≡ write_on (hex_text n) (page out.old at) }
{
    put_all(out, at, &hex(n))
}

pub fn put_half(out: &mut [u8], at: usize, n: u16) -> usize
    ensures { page out.new result ≡ write_on (half_text n) (page out.old at) }
{
    put_all(out, at, &half_hex(n))
}
