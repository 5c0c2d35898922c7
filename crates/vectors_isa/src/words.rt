// The operations on words.
use crate::corners::VALUES;
use crate::tallies::fold_all;
use word::{ByteAddr, Sum, Width};

pub fn sums<F: Fn(u32, u32, bool) -> Sum>(op: F) -> u64
    requires { F.IsAlwaysCallable op }
{
    let mut d = 1;
    for x in &VALUES {
        for y in &VALUES {
            for c in [false, true] {
                let sum = op(*x, *y, c);
                d = fold_all(d, &[sum.value, u32::from(sum.carry)]);
            }
        }
    }
    d
}

pub fn results<F: Fn(u32, u32) -> u32>(op: F) -> u64
    requires { F.IsAlwaysCallable op }
{
    let mut d = 1;
    for x in &VALUES {
        for y in &VALUES {
            d = digest::fold(d, op(*x, *y));
        }
    }
    d
}

pub fn extensions() -> u64 {
    let mut d = 1;
    for x in &VALUES {
        for w in 1..=32 {
            d = digest::fold(d, word::extend(w, *x));
        }
    }
    d
}

const WIDTHS: [Width; 3] = [Width::Byte, Width::Half, Width::Word];

const BYTES: [u8; 16] = [
    41, 114, 187, 4, 77, 150, 223, 40, 113, 186, 3, 76, 149, 222, 39, 112,
];

// Each access inside the 16 bytes.
pub fn loads() -> u64 {
    let mut d = 1;
    for w in WIDTHS {
        for a in 0..=16 - word::bytes(w) {
            d = digest::fold(d, word::load(w, &BYTES, ByteAddr(a)));
        }
    }
    d
}

pub fn stores() -> u64 {
    let mut d = 1;
    for x in &VALUES {
        for w in WIDTHS {
            for a in 0..=16 - word::bytes(w) {
                let mut m = BYTES;
                word::store(w, &mut m, ByteAddr(a), *x);
                d = digest::fold_bytes(d, &m);
            }
        }
    }
    d
}
