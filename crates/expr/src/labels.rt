// Labels: names, their numbers, and where they stand.
ghost use Rattle.std.specs.Prelude.{◌≡◌, ℕ, cond, Some, None, ◌≤◌, length, get_or, map};
ghost use Rattle.expr.specs.Expr.{is_letter, is_digit, run_of, rank_of, key_of, is_name, index_of, meaning, labels_in, found};
ghost use Rattle.expr.specs.Parts.{named, led_by};

use crate::{Entry, Value};

// The byte at a place, 0 past the end. No Option: `is_name`, `sign_of`, `plain_with` and `closed_of` of specs/Expr.antt say `get_or` with that 0.
pub fn byte(s: &[u8], i: usize) -> u8
    ensures { result ≡ get_or s.now i 0 }
{
    s.get(i).copied().unwrap_or(0)
}

pub fn is_letter(c: u8) -> bool
    ensures { result ≡ is_letter c }
{
    c.is_ascii_lowercase()
}

fn is_digit(c: u8) -> bool
    ensures { result ≡ is_digit c }
{
    c.is_ascii_digit()
}

fn is_named(c: u8) -> bool
    ensures { result ≡ named c }
{
    is_letter(c) || is_digit(c)
}

// How many letters and digits lead. By `take_while` and `count` a line of an assembler text takes some 70 instructions more.
pub fn run(s: &[u8]) -> usize
    ensures { (result ≡ run_of s.now) × (result ≤ length s.now) }
{
    for (i, c) in s.iter().enumerate() {
        if !is_named(*c) {
            return i;
        }
    }
    s.len()
}

// What a letter or a digit is worth in a name's number.
fn rank(c: u8) -> Option<u64>
    ensures { result ≡ cond (named c) (Some (rank_of c)) None }
{
    if is_letter(c) {
        Some((c - 86) as u64)
    } else if is_digit(c) {
        Some((c - 47) as u64)
    } else {
        None
    }
}

// The number of the letters and digits that lead, and how many they are; none where they are more than twelve, so that the number fits. Inlined, it takes some
// 120 instructions less for a line of an assembler text.
#[inline(always)]
pub fn lead(s: &[u8]) -> Option<(u64, usize)>
    ensures { result ≡ led_by s.now }
{
    let mut v: u64 = 0;
    for (i, c) in s.iter().enumerate() {
        let Some(r) = rank(*c) else {
            return Some((v, i));
        };
        if i == 12 {
            return None;
        }
        v = v * 37 + r;
    }
    Some((v, s.len()))
}

// A name's number, 0 for what is no name. No Option: `named` of forms/specs/Form.antt is that 0, and the table of slots in forms is searched for the number as it is.
pub fn label(s: &[u8]) -> u64
    ensures { result ≡ cond (is_name s.now) (key_of s.now) 0 }
{
    let Some((v, n)) = lead(s) else {
        return 0;
    };
    if n == s.len() && is_letter(byte(s, 0)) {
        v
    } else {
        0
    }
}

// What is looked through for a name's number: numbers alone, or labels.
trait Keyed: Copy {
    ghost key: { Self → ℕ };

    fn key(self) -> u64
        ensures { result ≡ key self };
}

impl Keyed for u64 {
    ghost key = { λ n. n };

    fn key(self) -> u64 {
        self
    }
}

impl Keyed for Entry {
    ghost key = { λ l. l.name };

    fn key(self) -> u64 {
        self.name
    }
}

// The place of the first that has that number; the length where there is none. Four at a time: by `iter().find` alone a line of an assembler text takes some
// 600 instructions more.
fn first<T: Keyed>(all: &[T], k: u64) -> usize
    ensures place { result ≡ index_of (map T.key all.now) k }
    ensures within { result ≤ length all.now }
{
    let mut rest = all;
    while let [a, b, c, d, more @ ..] = rest {
        if a.key() == k {
            return all.len() - rest.len();
        }
        if b.key() == k {
            return all.len() - rest.len() + 1;
        }
        if c.key() == k {
            return all.len() - rest.len() + 2;
        }
        if d.key() == k {
            return all.len() - rest.len() + 3;
        }
        rest = more;
    }
    for (i, x) in rest.iter().enumerate() {
        if x.key() == k {
            return all.len() - rest.len() + i;
        }
    }
    all.len()
}

// Of numbers alone.
pub fn find(keys: &[u64], k: u64) -> usize
    ensures { (result ≡ index_of keys.now k) × (result ≤ length keys.now) }
{
    first(keys, k)
}

// Where the first label stands whose name has that number.
pub fn place(labels: &[Entry], k: u64) -> Option<u32>
    ensures { result ≡ found labels.now k }
{
    let i = first(labels, k);
    if i < labels.len() {
        Some(labels[i].place)
    } else {
        None
    }
}

pub fn mean(labels: &[Entry], k: u64) -> Value
    ensures { result ≡ meaning (labels_in labels.now) k }
{
    match place(labels, k) {
        Some(at) => Value::Is(at.cast_signed()),
        None => Value::Unknown,
    }
}
