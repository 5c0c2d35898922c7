// The digests of bytes, and of a step's line.
use cpu::Entry;
use digest::{fold, fold_bytes};
use machine::Line;
use word::ByteAddr;

pub fn digest_of(m: &[u8]) -> u64 {
    fold_bytes(1, m)
}

fn folded_word(d: u64, x: u32) -> u64 {
    fold_bytes(d, &x.to_be_bytes())
}

// A step's line folds in eleven bytes. A bus error folds in 0, as docs/CORPUS.md has it, where `detail_of` of abi_show says 15 or 14.
fn folded_entry(d: u64, e: Entry) -> u64 {
    let (kind, n) = match e {
        Entry::Nothing => (b'-', 0),
        Entry::Swint(n) => (b's', n),
        Entry::Debug(hit) => (b'd', hit),
        Entry::Timer => (b't', 0),
        Entry::External(i) => (b'e', i),
        Entry::FetchError | Entry::DataError => (b'b', 0),
    };
    fold(fold(d, u32::from(kind)), n)
}

fn folded_data(d: u64, a: Option<ByteAddr>) -> u64 {
    match a {
        Some(at) => folded_word(fold(d, 1), at.0),
        None => folded_word(fold(d, 0), 0),
    }
}

pub fn folded_line(d: u64, line: Line) -> u64 {
    let started = folded_word(d, line.pc.0);
    folded_data(folded_entry(started, line.entry), line.address)
}
