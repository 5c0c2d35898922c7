// What is counted for each mnemonic.
use crate::mnemonics::operands;
use isa::{Encoded, Instr};

// Digests start at 1.
#[derive(Clone, Copy)]
pub struct Tally {
    pub name: &'static str,
    // pairs of halves that decoded to the mnemonic, and their digest
    pub pairs: u64,
    pub pairs_digest: u64,
    // instructions that have bits, those that have none, and the digest of both
    pub with_bits: u64,
    pub without_bits: u64,
    pub digest: u64,
}

impl Tally {
    pub fn new(name: &'static str) -> Tally {
        Tally {
            name,
            pairs: 0,
            pairs_digest: 1,
            with_bits: 0,
            without_bits: 0,
            digest: 1,
        }
    }

    // A pair of halves: all that is counted of one that is no instruction.
    pub fn add_pair(&mut self, first: u16, second: u16) {
        self.pairs = self.pairs.wrapping_add(1);
        self.pairs_digest = fold_all(self.pairs_digest, &[u32::from(first), u32::from(second)]);
    }

    // A pair of halves that decoded to an instruction of `size` bytes.
    pub fn add_decoded(&mut self, first: u16, second: u16, size: u32, i: Instr) {
        self.add_pair(first, second);
        let d = fold_all(self.pairs_digest, &[size]);
        self.pairs_digest = fold_instruction(d, i, isa::encode(i));
    }

    pub fn add_encoded(&mut self, i: Instr) {
        let e = isa::encode(i);
        if e.is_some() {
            self.with_bits = self.with_bits.wrapping_add(1);
        } else {
            self.without_bits = self.without_bits.wrapping_add(1);
        }
        self.digest = fold_instruction(self.digest, i, e);
    }
}

pub fn fold_all(d: u64, numbers: &[u32]) -> u64 {
    numbers.iter().fold(d, |e, n| digest::fold(e, *n))
}

// An instruction's operands, how many halves it has, and the halves.
fn fold_instruction(d: u64, i: Instr, e: Option<Encoded>) -> u64 {
    let (halves, first, second) = match e {
        Some(Encoded::Half(first)) => (1, first, 0),
        Some(Encoded::Pair(first, second)) => (2, first, second),
        None => (0, 0, 0),
    };
    let d = fold_all(d, &operands(i));
    fold_all(d, &[halves, u32::from(first), u32::from(second)])
}
