// What mnemonics stand for, and the operands that they take.
ghost use Rattle.std.specs.Prelude.{◌≡◌, ◌+◌, ◌≤◌, ◌<◌, ◌^◌, cond, ltb};
ghost use Rattle.text.specs.Digits.{value_of};
ghost use Rattle.text.specs.Words.{ascii};
ghost use Rattle.forms.specs.Form.{mnemonics, byte_of, what_at, kind_shape, shape_of, below, numbered_of, fields_of, tabs_for};
ghost use Rattle.forms.specs.Parts.{with_entry, slots, place_in};

use crate::{Shape, Sort, What};
use isa::Kind;

// The names' numbers, by the places of the opcode map; then `half` and `word`.
const MNEMONICS: [u64; 83] = [
    0, 0, 0, 0, 0, 0, 0, 0, 0, 0, 0, 0, 1154900, 1155122, 597939, 44707193, 56049147, 0, 43956472,
    44665614, 0, 0, 0, 0, 0, 0, 0, 0, 768, 28438, 1053381, 0, 40860, 15591, 1511833, 576880, 32444,
    15961, 953, 47499, 40971, 47245, 40977, 50560, 31213, 31219, 16160, 1208302, 945915675,
    25565288, 25565401, 25565549, 25565550, 25565365, 945925369, 945918524, 1200444, 1511836,
    21344798, 576883, 1200458, 1511850, 21344812, 576897, 41979991, 590576, 576886, 1200447, 30664,
    40839, 1134586, 1511061, 1134580, 1511055, 756, 40457, 770, 40471, 20, 1093, 762, 927643,
    1706824,
];

fn numbers() -> [u64; 83]
    ensures { result ≡ mnemonics }
{
    MNEMONICS
}

// The slot of a name's number is its rest modulo 312, in which no two mnemonics agree. It holds the number and the place.
#[tactic(auto, unfolding(crate::specs::Parts::with_entry))]
fn put_entry(table: &mut [u64; 312], k: u64, place: usize)
    requires { (k < 2 ^ 32) × (place < 83) }
    ensures { table.new ≡ with_entry table.old k place }
{
    if k != 0 {
        table[(k % 312) as usize] = k * 128 + place as u64;
    }
}

// A slot for each rest, so that a mnemonic is found at once. It is no map, since the definitions slots and with_entry say the 312 numbers, and that k and p are
// held as k * 128 + p; and there is no heap.
pub fn table() -> [u64; 312]
    ensures { result ≡ slots }
{
    let names = numbers();
    let mut table = [0u64; 312];
    for (place, name) in names.iter().enumerate() {
        put_entry(&mut table, *name, place);
    }
    table
}

// The place of a name's number; 83 where it is no mnemonic's. It is no `None`, since the definition place_in says this number.
#[tactic(auto, unfolding(crate::specs::Parts::place_in))]
pub fn place_in(table: &[u64; 312], k: u64) -> usize
    ensures { result ≡ place_in table.now k }
{
    let entry = table[(k % 312) as usize];
    if entry / 128 == k {
        (entry % 128) as usize
    } else {
        83
    }
}

#[tactic(auto, unfolding(crate::specs::Form::byte_of))]
fn byte_of(place: usize) -> u8
    requires { place < 81 }
    ensures { result ≡ byte_of place }
{
    match place {
        0..64 => place as u8,
        64..74 => ((place - 60) * 16) as u8,
        _ => ((place - 18) * 4) as u8,
    }
}

#[tactic(auto, unfolding(crate::specs::Form::what_at))]
pub fn what_at(place: usize) -> What
    ensures { result ≡ what_at place }
{
    match place {
        0..81 => What::Code(isa::kind_of(byte_of(place))),
        81 => What::Half,
        82 => What::Word,
        _ => What::Code(Kind::Nothing),
    }
}

fn shape(size: u32, first: Sort, second: Sort, third: Sort) -> Shape
    ensures { result ≡ record { size = size; first = first; second = second; third = third } }
{
    Shape {
        size,
        first,
        second,
        third,
    }
}

#[tactic(auto, unfolding(crate::specs::Form::kind_shape))]
fn kind_shape(k: Kind) -> Shape
    ensures { result ≡ kind_shape k }
{
    match k {
        Kind::Nothing => shape(2, Sort::Never, Sort::Nothing, Sort::Nothing),
        Kind::Alu(_) | Kind::Cmp(_) | Kind::Cond(_, _) => shape(
            2,
            Sort::Reg,
            Sort::Reg,
            Sort::Nothing,
        ),
        Kind::ShiftImm(_) | Kind::CmpImm(_) | Kind::CondImm(_) | Kind::Ldrpc | Kind::Imm(_) =>
            shape(2, Sort::Reg, Sort::Sum, Sort::Nothing),
        Kind::Load(_) | Kind::Store(_) => shape(2, Sort::Reg, Sort::Sum, Sort::Reg),
        Kind::Mfsfr => shape(2, Sort::Reg, Sort::Sfr, Sort::Nothing),
        Kind::Mtsfr => shape(2, Sort::Sfr, Sort::Reg, Sort::Nothing),
        Kind::Jr | Kind::Jrl => shape(2, Sort::Reg, Sort::Nothing, Sort::Nothing),
        Kind::Jsfr => shape(2, Sort::LowSfr, Sort::Nothing, Sort::Nothing),
        Kind::Swint | Kind::ShortJump(_) => shape(2, Sort::Sum, Sort::Nothing, Sort::Nothing),
        Kind::LongJump(_) => shape(4, Sort::Sum, Sort::Nothing, Sort::Nothing),
    }
}

#[tactic(auto, unfolding(crate::specs::Form::shape_of))]
pub fn shape_of(w: What) -> Shape
    ensures { result ≡ shape_of w }
{
    match w {
        What::Code(k) => kind_shape(k),
        What::Half => shape(2, Sort::Sum, Sort::Nothing, Sort::Nothing),
        What::Word => shape(4, Sort::Sum, Sort::Nothing, Sort::Nothing),
    }
}

// The limit for none, as the definition below says.
fn below_limit(limit: u32, n: Option<u32>) -> u32
    ensures { result ≡ below limit n }
{
    n.unwrap_or(limit).min(limit)
}

// The number after a register's or an SFR's letters; the limit where there is none. It is no `None`, since the definition numbered_of says the limit there.
pub fn numbered(letters: &[u8], limit: u32, field: &[u8]) -> u32
    ensures { result ≡ numbered_of letters.now limit field.now }
{
    match field.strip_prefix(letters) {
        Some(rest) => below_limit(limit, text::decimal(rest)),
        None => limit,
    }
}

// 16 for none, the limit that numbered_of says in the contract of `register`.
fn digit_below(limit: u32, from: u32, c: u8) -> u32
    requires { from + limit ≤ 16 }
    ensures { result ≡ cond (ltb (value_of c) limit) (from + value_of c) 16 }
{
    let d = text::value(c);
    if d < limit { from + d } else { 16 }
}

// The number of a register. One digit, or two of which the first is 1, are read at once.
pub fn register(field: &[u8]) -> u32
    ensures { result ≡ numbered_of (ascii "r") 16 field.now }
{
    match field {
        [b'r', c] => digit_below(10, 0, *c),
        [_, _] => 16,
        [b'r', b'1', c] => digit_below(6, 10, *c),
        [_, b'1', _] => 16,
        _ => numbered(b"r", 16, field),
    }
}

fn fields_of(s: Sort) -> usize
    ensures { (result ≡ fields_of s) × (result ≤ 1) }
{
    match s {
        Sort::Nothing | Sort::Never => 0,
        Sort::Reg | Sort::Sfr | Sort::LowSfr | Sort::Sum => 1,
    }
}

pub fn tabs_for(s: Shape) -> usize
    ensures { result ≡ tabs_for s }
{
    1 + fields_of(s.first) + fields_of(s.second) + fields_of(s.third)
}
