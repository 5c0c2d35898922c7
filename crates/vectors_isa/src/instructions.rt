// All first halves decoded, and each mnemonic's corner operands encoded.
use crate::corners::VALUES;
use crate::mnemonics::{MNEMONICS, NONE, mnemonic, operand_count, with_operands};
use crate::tallies::Tally;
use isa::{Decoded, Instr};

fn decode_pair(t: &mut [Tally; MNEMONICS], first: u16, second: u16) {
    match isa::decode(first, second) {
        Some(Decoded::Short(i)) => t[mnemonic(first)].add_decoded(first, second, 2, i),
        Some(Decoded::Long(i)) => t[mnemonic(first)].add_decoded(first, second, 4, i),
        None => t[NONE].add_pair(first, second),
    }
}

// A second half that depends on the first.
fn mixed(first: u16) -> u16 {
    ((u64::from(first) * 40503 + 12345) % 65536) as u16
}

pub fn decode_all(t: &mut [Tally; MNEMONICS]) {
    for first in 0..=u16::MAX {
        for second in [0, 1, 32767, 32768, 65535, mixed(first)] {
            decode_pair(t, first, second);
        }
    }
}

// What an operand runs over.
fn corners(used: bool) -> &'static [u32] {
    if used { &VALUES } else { &[0] }
}

fn encode_corners(tally: &mut Tally, i: Instr) {
    let count = operand_count(i);
    for a in &VALUES {
        for b in corners(2 <= count) {
            for c in corners(3 <= count) {
                tally.add_encoded(with_operands(i, [*a, *b, *c]));
            }
        }
    }
}

// A mnemonic is encoded when its first half is first met.
fn encode_first(tally: &mut Tally, i: Instr) {
    if tally.with_bits == 0 && tally.without_bits == 0 {
        encode_corners(tally, i);
    }
}

pub fn encode_all(t: &mut [Tally; MNEMONICS]) {
    for first in 0..=u16::MAX {
        if let Some(Decoded::Short(i) | Decoded::Long(i)) = isa::decode(first, 0) {
            encode_first(&mut t[mnemonic(first)], i);
        }
    }
}
