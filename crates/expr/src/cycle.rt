// Sum, product and operand: a cycle of calls that ends since a parenthesis takes one off the allowance.
ghost use Rattle.std.specs.Prelude.{◌≡◌, ◌+◌, ◌≤◌, ◌<◌, ◌^◌, length};
ghost use Rattle.expr.specs.Expr.{labels_in, size_of, joined_of, adds, sign_of, signed_of, closed_of, items_of, operand_of, product_of, sum_of, value_of};
ghost use Rattle.expr.specs.Parts.{joins_in, item_in};

use crate::labels::byte;
use crate::leaves::leaf;
use crate::values::combine;
use crate::{Entry, Fault, Read, Value};

// A sum's items are products, a product's are operands.
#[derive(Clone, Copy)]
enum Level {
    Sum,
    Product,
}

fn joined(c: u8, v: Value, next: Read) -> Read
    ensures { (result ≡ joined_of c v next) × (size_of result ≤ size_of next) }
{
    let (w, n) = next?;
    Ok((combine(c, v, w), n))
}

pub fn is_adding(c: u8) -> bool
    ensures { result ≡ adds c }
{
    c == b'+' || c == b'-'
}

// How many bytes of a minus lead.
fn sign(s: &[u8]) -> usize
    ensures { (result ≡ sign_of s.now) × (result ≤ 1) × (result ≤ length s.now) }
{
    if byte(s, 0) == b'-' { 1 } else { 0 }
}

// What stands after k bytes of a minus, with them.
fn signed(k: usize, next: Read) -> Read
    requires { (k ≤ 1) × (size_of next < 2 ^ 63) }
    ensures { (result ≡ signed_of k next) × (size_of result ≤ k + size_of next) }
{
    let (w, n) = next?;
    if k == 0 {
        return Ok((w, n));
    }
    Ok((combine(b'-', Value::Is(0), w), n + 1))
}

// What was read after a parenthesis, with the one that closes it.
fn closed(s: &[u8], inner: Read) -> Read
    ensures { (result ≡ closed_of s.now inner) × (size_of result ≤ length s.now + 1) }
{
    let (v, n) = inner?;
    if byte(s, n) == b')' {
        return Ok((v, n + 2));
    }
    Err(Fault::Form)
}

#[cycle(operand_product_sum)]
fn operand(s: &[u8], labels: &[Entry], more: u32) -> Read
    ensures { (result ≡ operand_of (labels_in labels.now) more s.now) × (size_of result ≤ length s.now) }
{
    let k = sign(s);
    if byte(s, k) == b'(' {
        if more == 0 {
            return Err(Fault::Deep);
        }
        let from = k + 1;
        let inner = sum(&s[from..], labels, more - 1);
        let whole = closed(&s[from..], inner);
        return signed(k, whole);
    }
    let plain = leaf(&s[k..], labels);
    signed(k, plain)
}

// The byte that joins two items.
fn joins(level: Level, c: u8) -> bool
    ensures { result ≡ joins_in level c }
{
    match level {
        Level::Sum => is_adding(c),
        Level::Product => c == b'*',
    }
}

#[cycle(operand_product_sum)]
#[inline(always)]
fn item(level: Level, s: &[u8], labels: &[Entry], more: u32) -> Read
    ensures { (result ≡ item_in level (labels_in labels.now) more s.now) × (size_of result ≤ length s.now) }
{
    match level {
        Level::Sum => product(s, labels, more),
        Level::Product => operand(s, labels, more),
    }
}

// A sum or a product. No `for` fits: each turn moves by as many bytes as an item took. Inlined with `item`, it takes some 50 instructions less for a line of an
// assembler text.
#[cycle(operand_product_sum)]
#[inline(always)]
fn items(level: Level, s: &[u8], labels: &[Entry], more: u32) -> Read
    ensures { (result ≡ items_of (joins_in level) (item_in level (labels_in labels.now) more) s.now) × (size_of result ≤ length s.now) }
{
    let (mut v, mut at) = item(level, s, labels, more)?;
    while joins(level, byte(s, at)) {
        let from = at + 1;
        let next = item(level, &s[from..], labels, more);
        let (x, m) = joined(s[at], v, next)?;
        v = x;
        at = from + m;
    }
    Ok((v, at))
}

#[cycle(operand_product_sum)]
fn product(s: &[u8], labels: &[Entry], more: u32) -> Read
    ensures { (result ≡ product_of (labels_in labels.now) more s.now) × (size_of result ≤ length s.now) }
{
    items(Level::Product, s, labels, more)
}

#[cycle(operand_product_sum)]
fn sum(s: &[u8], labels: &[Entry], more: u32) -> Read
    ensures { (result ≡ sum_of (labels_in labels.now) more s.now) × (size_of result ≤ length s.now) }
{
    items(Level::Sum, s, labels, more)
}

// At most eight parentheses may be open.
pub fn evaluate(s: &[u8], labels: &[Entry]) -> Read
    ensures { result ≡ value_of (labels_in labels.now) s.now }
{
    sum(s, labels, 8)
}
