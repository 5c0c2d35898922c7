// One line: what stands at an address, and its text.
ghost use Rattle.std.specs.Prelude.{◌≡◌, ◌/◌, ◌≤◌, cond, ◌++◌};
ghost use Rattle.text.specs.Digits.{hex_text, half_text};
ghost use Rattle.text.specs.Pages.{page, write_on};
ghost use Rattle.isa.specs.Statements.{is_long};
ghost use Rattle.listing.specs.Listing.{cut_by, shown_of, half_in, second_in, entry_at, tab, second_text, line_text};
ghost use Rattle.listing.specs.Lent.{line_of};

use crate::names::{HALF_PLACE, Tables, place_of, put_name};
use crate::rows::{put_row, row_of};
use crate::{Entry, Line, Operand, Row, Shown};
use isa::Decoded;
use word::{ByteAddr, Width};

#[tactic(auto, using(word::proofs::Memory::half_lt))]
fn half_in(image: &[u8], at: ByteAddr) -> u16
    ensures { result ≡ half_in image.now at }
{
    word::load(Width::Half, image, at) as u16
}

fn is_long(first: u16) -> bool
    ensures { result ≡ is_long (first / 256) }
{
    let [n, _] = first.to_be_bytes();
    224 <= n && n / 4 % 2 == 0
}

// The second half, where the first says that there is one; else 0, as the definition second_in says.
fn second_in(image: &[u8], at: ByteAddr, first: u16) -> u16
    ensures { result ≡ second_in image.now at first }
{
    if is_long(first) {
        half_in(image, word::byte_sum(at, 2))
    } else {
        0
    }
}

// With one arm `_ => d` for what isn't cut a line takes 25 instructions more.
fn cut(end: usize, at: ByteAddr, d: Option<Decoded>) -> Option<Decoded>
    ensures { result ≡ cut_by end at d }
{
    match d {
        Some(Decoded::Short(i)) => Some(Decoded::Short(i)),
        Some(Decoded::Long(i)) if at.0 as usize + 4 <= end => Some(Decoded::Long(i)),
        _ => None,
    }
}

#[tactic(auto, unfolding(crate::specs::Listing::shown_of))]
fn shown(at: ByteAddr, first: u16, d: Option<Decoded>) -> Shown
    ensures { result ≡ shown_of at first d }
{
    match d {
        Some(Decoded::Short(i)) => Shown {
            long: false,
            place: place_of(first),
            row: row_of(at, i),
        },
        Some(Decoded::Long(i)) => Shown {
            long: true,
            place: place_of(first),
            row: row_of(at, i),
        },
        None => Shown {
            long: false,
            place: HALF_PLACE,
            row: Row::One(Operand::Bits(first)),
        },
    }
}

#[tactic(auto, unfolding(crate::specs::Listing::entry_at))]
pub fn entry_at(image: &[u8], at: ByteAddr, end: usize) -> Entry
    ensures { result ≡ entry_at image.now at end }
{
    let first = half_in(image, at);
    let second = second_in(image, at, first);
    let d = cut(end, at, isa::decode(first, second));
    Entry {
        at,
        first,
        second,
        shown: shown(at, first, d),
    }
}

// By the flag, as the definition size_of says it.
pub fn size(long: bool) -> u32
    ensures { (result ≡ cond long 4 2) × (2 ≤ result) × (result ≤ 4) }
{
    if long { 4 } else { 2 }
}

// Address and first half: all their digits at once. `put_hex` and `put_half` take 29 instructions a line more, of about 300.
fn put_head(out: &mut [u8], at: usize, tables: &Tables, a: u32, first: u16) -> usize
    ensures { page out.new result ≡ write_on (hex_text a ++ tab (half_text first)) (page out.old at) }
{
    let digits = &tables.digits;
    let h = first as u32;
    let head = [
        text::last_digit(digits, a / 268435456),
        text::last_digit(digits, a / 16777216),
        text::last_digit(digits, a / 1048576),
        text::last_digit(digits, a / 65536),
        text::last_digit(digits, a / 4096),
        text::last_digit(digits, a / 256),
        text::last_digit(digits, a / 16),
        text::last_digit(digits, a),
        b'\t',
        text::last_digit(digits, h / 4096),
        text::last_digit(digits, h / 256),
        text::last_digit(digits, h / 16),
        text::last_digit(digits, h),
    ];
    text::put_all(out, at, &head)
}

// The second half, where there is one. The definition second_text takes the flag.
#[tactic(auto, unfolding(text::specs::Pages::write_on))]
fn put_second(out: &mut [u8], at: usize, long: bool, second: u16) -> usize
    ensures { page out.new result ≡ write_on (second_text long second) (page out.old at) }
{
    if long {
        text::put_half(out, at, second)
    } else {
        at
    }
}

#[tactic(auto, using(crate::proofs::Laws::line_written))]
pub fn put_entry(out: &mut [u8], at: usize, tables: &Tables, x: Entry) -> usize
    ensures { page out.new result ≡ write_on (line_text x) (page out.old at) }
{
    let a = put_head(out, at, tables, x.at.0, x.first);
    let b = put_second(out, a, x.shown.long, x.second);
    let c = text::put(out, b, b'\t');
    let d = put_name(out, c, tables, x.shown.place);
    let e = put_row(out, d, x.shown.row);
    text::put(out, e, b'\n')
}

// One line of a range that ends at `end`, by value.
pub fn line_at(image: &[u8], at: ByteAddr, end: usize) -> Line
    ensures { result ≡ line_of image.now at end }
{
    let x = entry_at(image, at, end);
    let next = word::byte_sum(at, size(x.shown.long));
    let mut text = [0u8; 48];
    let length = put_entry(&mut text, 0, &Tables::new(), x);
    Line { text, length, next }
}
