// Text in the written form of our tools: fields parted by tabs, decimals without leading zeros, lower-case hex.
#![tactic(auto)]

ghost use Rattle.std.specs.Prelude.{◌≡◌, ◌≤◌, ◌<◌, ◌%◌, length, get_or, take, drop};
ghost use Rattle.text.specs.Digits.{value_of, glyph_of, glyphs, digits_read, digits_in, digits_of, leading_zero, decimal_of, address_of, are_hex, pair_of, hex_text, half_text};
ghost use Rattle.text.specs.Fields.{tab_of, before_of, beyond_of, same_of};

mod writing;

pub use writing::{put, put_all, put_half, put_hex, put_number, put_signed};

// ---- parts and fields

// The first n bytes, or all where there are fewer.
pub fn start_part(l: &[u8], n: usize) -> &[u8]
    ensures { result.now ≡ take n l.now }
{
    &l[..n.min(l.len())]
}

// What stands beyond the first n bytes.
pub fn end_part(l: &[u8], n: usize) -> &[u8]
    ensures { result.now ≡ drop n l.now }
{
    &l[n.min(l.len())..]
}

fn tab_in(l: &[u8]) -> usize
    ensures place { result ≡ tab_of l.now }
    ensures within { result ≤ length l.now }
{
    l.iter().position(|c| *c == b'\t').unwrap_or(l.len())
}

pub fn before(l: &[u8]) -> &[u8]
    ensures { result.now ≡ before_of l.now }
{
    &l[..tab_in(l)]
}

pub fn beyond(l: &[u8]) -> &[u8]
    ensures { result.now ≡ beyond_of l.now }
{
    end_part(l, tab_in(l) + 1)
}

// A function and not `==` where words are compared: the definitions `first_of` and `body_of` (crate script) do it by `same_of`, to which `same_is` takes `==` here once for all.
#[tactic(auto, using(crate::proofs::Laws::same_is))]
pub fn is_same(a: &[u8], b: &[u8]) -> bool
    ensures { result ≡ same_of a.now b.now }
{
    a == b
}

// ---- digits read

// 16 for any other byte, and no Option: the definition `value_of` has it so, which `digits_read` and `are_hex` compare with a base and `pair_of` reckons with.
#[tactic(auto, using(std::proofs::lemmas::Bool::Decides::nat_tests), unfolding(crate::specs::Digits::value_of))]
pub fn value(c: u8) -> u32
    ensures { (result ≡ value_of c) × (result ≤ 16) }
{
    match c {
        b'0'..=b'9' => u32::from(c - b'0'),
        b'a'..=b'f' => u32::from(c - b'a' + 10),
        _ => 16,
    }
}

fn number(base: u32, l: &[u8]) -> Option<u32>
    requires { (base ≤ 16) × (length l.now ≤ 8) }
    ensures { result ≡ digits_read base 0 l.now }
{
    let mut v: u64 = 0;
    for c in l {
        let d = value(*c);
        if base <= d {
            return None;
        }
        v = v * base as u64 + d as u64;
    }
    Some(v as u32)
}

// How far digits of a base reach, among the first `most` bytes.
pub fn digits_in(base: u32, most: usize, l: &[u8]) -> usize
    ensures { (result ≡ digits_in base most l.now) × (result ≤ most) }
{
    l.iter()
        .take(most)
        .take_while(|c| value(**c) < base)
        .count()
}

pub fn has_leading_zero(l: &[u8]) -> bool
    ensures { result ≡ leading_zero l.now }
{
    l.len() > 1 && l[0] == b'0'
}

pub fn decimal(l: &[u8]) -> Option<u32>
    ensures { result ≡ decimal_of l.now }
{
    if l.is_empty() || l.len() > 5 || has_leading_zero(l) {
        return None;
    }
    number(10, l)
}

pub fn address(l: &[u8]) -> Option<u32>
    ensures { result ≡ address_of l.now }
{
    if l.len() != 8 {
        return None;
    }
    number(16, l)
}

pub fn are_hex(l: &[u8]) -> bool
    ensures { result ≡ are_hex l.now }
{
    l.iter().all(|c| value(*c) < 16)
}

pub fn pair(c: u8, d: u8) -> u8
    ensures { result ≡ pair_of c d }
{
    ((value(c) * 16 + value(d)) % 256) as u8
}

// ---- digits written

#[tactic(auto, using(std::proofs::lemmas::Bool::Decides::nat_tests), unfolding(crate::specs::Digits::glyph_of))]
fn glyph(d: u64) -> u8
    requires { d < 16 }
    ensures { result ≡ glyph_of d }
{
    if d < 10 {
        b'0' + d as u8
    } else {
        b'a' + (d - 10) as u8
    }
}

pub fn glyph_table() -> [u8; 16]
    ensures { result ≡ glyphs }
{
    *b"0123456789abcdef"
}

// The last hex digit of n. The table is lent, since the compiler builds it anew wherever it is named.
pub fn last_digit(table: &[u8; 16], n: u32) -> u8
    ensures { result ≡ get_or table.now (n % 16) 0 }
{
    table[(n % 16) as usize]
}

// As many digits as there are places, from the last to the first. By index: after a loop over `out.iter_mut().rev()` a proof is given nothing of what `out` holds.
fn spell(base: u64, n: u64, out: &mut [u8])
    requires { (1 < base) × (base ≤ 16) }
    ensures { out.new ≡ digits_of base (length out.old) n }
{
    let mut rest = n;
    for i in (0..out.len()).rev() {
        out[i] = glyph(rest % base);
        rest /= base;
    }
}

fn hex_digits<const N: usize>(n: u64) -> [u8; N]
    ensures { result ≡ digits_of 16 N n }
{
    let mut digits = [0u8; N];
    spell(16, n, &mut digits);
    digits
}

// Two of fixed length: the definitions `hex_text` and `half_text`, which listings and answers name, are of 8 and 4 digits; of `hex_digits`, each caller would write both the length and the cast.
pub fn hex(n: u32) -> [u8; 8]
    ensures { result ≡ hex_text n }
{
    hex_digits(n as u64)
}

pub fn half_hex(n: u16) -> [u8; 4]
    ensures { result ≡ half_text n }
{
    hex_digits(n as u64)
}
