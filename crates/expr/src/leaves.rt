// Numbers and labels: the letters and digits that lead, as one word.
ghost use Rattle.std.specs.Prelude.{◌≡◌, true, cond, ◌+◌, ◌*◌, ◌≤◌, leb, length, get_or, drop};
ghost use Rattle.text.specs.Digits.{digits_read};
ghost use Rattle.expr.specs.Expr.{is_letter, is_hex, labels_in, size_of, counted, number_read, leaf_of};

use crate::labels::{byte, is_letter, lead, mean, run};
use crate::values::write;
use crate::{Entry, Fault, Read};

// One digit more. What is too large stays too large, so it need not grow.
fn grown(v: u64, base: u64, d: u64) -> u64
    requires { (base ≤ 16) × (d ≤ 16) }
    ensures { result ≡ cond (leb v 2147483647) (v * base + d) v }
{
    if v <= 2147483647 { v * base + d } else { v }
}

// The number of a word from a place on. Each byte must be a digit, also where the number is too large already.
fn digits(base: u64, from: usize, w: &[u8]) -> Read
    requires { (1 ≤ base) × (base ≤ 16) × (from ≤ length w.now) }
    ensures { (result ≡ counted (length w.now) (digits_read base 0 (drop from w.now))) × (size_of result ≤ length w.now) }
{
    let mut v: u64 = 0;
    for c in &w[from..] {
        let d = text::value(*c) as u64;
        if base <= d {
            return Err(Fault::Form);
        }
        v = grown(v, base, d);
    }
    Ok((write(v), w.len()))
}

fn is_hex(w: &[u8]) -> bool
    ensures { result ≡ is_hex w.now }
{
    2 < w.len() && w[0] == b'0' && w[1] == b'x'
}

// A word that no letter leads.
fn number(w: &[u8]) -> Read
    ensures { (result ≡ number_read w.now) × (size_of result ≤ length w.now) }
{
    if is_hex(w) {
        return digits(16, 2, w);
    }
    if w.is_empty() || text::has_leading_zero(w) {
        return Err(Fault::Form);
    }
    digits(10, 0, w)
}

// The label that leads: its number is made while its end is looked for.
fn name(s: &[u8], labels: &[Entry]) -> Read
    requires { is_letter (get_or s.now 0 0) ≡ true }
    ensures { (result ≡ leaf_of (labels_in labels.now) s.now) × (size_of result ≤ length s.now) }
{
    match lead(s) {
        Some((v, n)) => Ok((mean(labels, v), n)),
        None => Err(Fault::Form),
    }
}

pub fn leaf(s: &[u8], labels: &[Entry]) -> Read
    ensures { (result ≡ leaf_of (labels_in labels.now) s.now) × (size_of result ≤ length s.now) }
{
    if is_letter(byte(s, 0)) {
        return name(s, labels);
    }
    let n = run(s);
    number(&s[..n])
}
