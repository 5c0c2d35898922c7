// Why a line is bad, and where in it: beside the functions of `lines` that decide it, since the definition `fault_of` has the reason apart from `line_of`, which has the phase.
// The definitions of specs/Fault.antt take the line, the field and its place one by one, and so do these functions.
ghost use Rattle.std.specs.Prelude.{◌≡◌, cond, ◌≤◌, ◌<◌};
ghost use Rattle.script.specs.declared.Reason.{Reason};
ghost use Rattle.script.specs.Fault.{good, found, ends_word, letters_in, bad_digits, bad_address, decimal_fault, address_fault, bytes_fault, limit_fault, away_fault, count_fault, number_fault, put_fault, mark_fault, first_fault, body_fault, fault_of, early, end_fault, why_of};

use crate::lines::{is_even, is_inside};
use crate::{Fault, Phase, Reader, Reason};

fn early_fault(reason: Reason) -> Option<Fault>
    ensures { result ≡ early reason }
{
    Some(Fault {
        reason,
        place: 0,
        byte: 0,
    })
}

fn found_at(reason: Reason, at: usize, l: &[u8]) -> Option<Fault>
    ensures { result ≡ found reason at l.now }
{
    Some(match l.get(at) {
        Some(b) => Fault {
            reason,
            place: at + 1,
            byte: *b,
        },
        None => Fault {
            reason,
            place: l.len() + 1,
            byte: b'\n',
        },
    })
}

fn ends_word(c: u8) -> bool
    ensures { result ≡ ends_word c }
{
    !c.is_ascii_lowercase()
}

fn letters_in(most: usize, l: &[u8]) -> usize
    ensures { result ≡ letters_in most l.now }
{
    l.iter().take(most).take_while(|c| !ends_word(**c)).count()
}

fn are_bad(d: usize, n: usize) -> bool
    ensures { result ≡ bad_digits d n }
{
    d == 0 || d < n
}

fn is_bad_address(d: usize, n: usize) -> bool
    ensures { result ≡ bad_address d n }
{
    d != 8 || n != 8
}

// `rest` is what is wrong beyond the form of the field, which starts at `at`.
#[tactic(auto, unfolding(crate::specs::Fault::decimal_fault))]
fn decimal_fault(at: usize, l: &[u8], f: &[u8], rest: Option<Fault>) -> Option<Fault>
    requires { at ≤ 32 }
    ensures { result ≡ decimal_fault at l.now f.now rest }
{
    let d = text::digits_in(10, 5, f);
    if are_bad(d, f.len()) {
        return found_at(Reason::Decimal, at + d, l);
    }
    if text::has_leading_zero(f) {
        return found_at(Reason::LeadingZero, at, l);
    }
    rest
}

#[tactic(auto, unfolding(crate::specs::Fault::address_fault))]
fn address_fault(at: usize, l: &[u8], f: &[u8], rest: Option<Fault>) -> Option<Fault>
    requires { at ≤ 32 }
    ensures { result ≡ address_fault at l.now f.now rest }
{
    let d = text::digits_in(16, 8, f);
    if is_bad_address(d, f.len()) {
        return found_at(Reason::Address, at + d, l);
    }
    rest
}

#[tactic(auto, unfolding(crate::specs::Fault::bytes_fault))]
fn bytes_fault(l: &[u8], h: &[u8], rest: Option<Fault>) -> Option<Fault>
    ensures { result ≡ bytes_fault l.now h.now rest }
{
    let d = text::digits_in(16, 32, h);
    if are_bad(d, h.len()) {
        return found_at(Reason::Bytes, 12 + d, l);
    }
    if is_even(h.len()) {
        return rest;
    }
    found_at(Reason::Odd, 12 + d, l)
}

#[tactic(auto, unfolding(crate::specs::Fault::limit_fault))]
fn limit_fault(r: Option<u32>, l: &[u8]) -> Option<Fault>
    ensures { result ≡ limit_fault r l.now }
{
    match r {
        Some(n) if n > 16384 => found_at(Reason::TooLarge, 4, l),
        _ => None,
    }
}

#[tactic(auto, unfolding(crate::specs::Fault::away_fault))]
fn away_fault(x: Option<u32>, c: usize, at: usize, l: &[u8], n: u32) -> Option<Fault>
    requires { c < 9223372036854775808 }
    ensures { result ≡ away_fault x c at l.now n }
{
    match x {
        Some(a) if c != 0 && !is_inside(a, c, n) => found_at(Reason::Outside, at, l),
        _ => None,
    }
}

#[tactic(auto, unfolding(crate::specs::Fault::count_fault))]
fn count_fault(x: Option<u32>, r: Option<u32>, l: &[u8], n: u32) -> Option<Fault>
    ensures { result ≡ count_fault x r l.now n }
{
    match r {
        None => None,
        Some(c) => away_fault(x, c as usize, 5, l, n),
    }
}

fn number_fault(l: &[u8], r: &[u8]) -> Option<Fault>
    ensures { result ≡ number_fault l.now r.now }
{
    let rest = limit_fault(text::decimal(r), l);
    decimal_fault(4, l, r, rest)
}

fn put_fault(l: &[u8], r: &[u8], n: u32) -> Option<Fault>
    ensures { result ≡ put_fault l.now r.now n }
{
    let f = text::before(r);
    let h = text::beyond(r);
    let away = away_fault(text::address(f), h.len() / 2, 3, l, n);
    address_fault(3, l, f, bytes_fault(l, h, away))
}

fn mark_fault(l: &[u8], r: &[u8], n: u32) -> Option<Fault>
    ensures { result ≡ mark_fault l.now r.now n }
{
    let f = text::before(r);
    let c = text::beyond(r);
    let away = count_fault(text::address(f), text::decimal(c), l, n);
    address_fault(5, l, f, decimal_fault(14, l, c, away))
}

#[tactic(auto, unfolding(crate::specs::Fault::first_fault))]
fn first_fault(l: &[u8]) -> Option<Fault>
    ensures { result ≡ first_fault l.now }
{
    if text::is_same(text::before(l), b"mem") {
        return number_fault(l, text::beyond(l));
    }
    found_at(Reason::First, letters_in(4, l), l)
}

#[tactic(auto, unfolding(crate::specs::Fault::body_fault))]
fn body_fault(l: &[u8], w: &[u8], r: &[u8], n: u32) -> Option<Fault>
    ensures { result ≡ body_fault l.now w.now r.now n }
{
    if text::is_same(w, b"at") {
        return put_fault(l, r, n);
    }
    if text::is_same(w, b"mark") {
        return mark_fault(l, r, n);
    }
    if text::is_same(w, b"run") {
        return number_fault(l, r);
    }
    found_at(Reason::Word, letters_in(4, l), l)
}

#[tactic(auto, unfolding(crate::specs::Fault::fault_of))]
pub fn line_fault(p: Phase, f: Option<Fault>, l: &[u8]) -> Option<Fault>
    ensures { result ≡ fault_of p f l.now }
{
    match p {
        Phase::First => first_fault(l),
        Phase::Body(n) => body_fault(l, text::before(l), text::beyond(l), n),
        Phase::Done(_, _) => found_at(Reason::AfterRun, 0, l),
        Phase::Bad => f,
    }
}

// After the last part: why the answer is `bad`, or that nothing is wrong.
#[tactic(auto, unfolding(crate::specs::Fault::end_fault))]
pub fn why(r: Reader) -> Option<Fault>
    ensures { result ≡ why_of r }
{
    let ended = r.used == 0;
    match r.phase {
        Phase::First | Phase::Body(_) => unread(ended),
        Phase::Done(_, _) => trailing(ended),
        Phase::Bad => r.fault,
    }
}

fn unread(ended: bool) -> Option<Fault>
    ensures { result ≡ early (cond ended Reason.Missing Reason.Unended) }
{
    early_fault(if ended {
        Reason::Missing
    } else {
        Reason::Unended
    })
}

fn trailing(ended: bool) -> Option<Fault>
    ensures { result ≡ cond ended good (early Reason.AfterRun) }
{
    if ended {
        None
    } else {
        early_fault(Reason::AfterRun)
    }
}
