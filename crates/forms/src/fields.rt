// Where the fields of a line stand.
ghost use Rattle.std.specs.Prelude.{◌≡◌, ◌≤◌, length};
ghost use Rattle.forms.specs.Form.{body_of, tabs_in};
ghost use Rattle.forms.specs.Parts.{stop_at, end_at, past_tab, cut_of};

use crate::Cut;

// The place of the next tab or newline. It is no one function with `end_from`: stop_of and end_of are two definitions, so that one that takes the test
// would need a third, and a lemma for each of the two.
fn stop_from(t: &[u8], from: usize) -> usize
    ensures { result ≡ stop_at t.now from }
{
    let rest = text::end_part(t, from);
    from + rest
        .iter()
        .position(|c| *c == b'\t' || *c == b'\n')
        .unwrap_or(rest.len())
}

fn end_from(t: &[u8], from: usize) -> usize
    ensures { result ≡ end_at t.now from }
{
    let rest = text::end_part(t, from);
    from + rest.iter().position(|c| *c == b'\n').unwrap_or(rest.len())
}

#[tactic(auto, using(crate::proofs::Laws::past_none), unfolding(crate::specs::Parts::past_tab))]
fn past_tab(t: &[u8], at: usize) -> usize
    ensures { result ≡ past_tab t.now at }
{
    if at < t.len() && t[at] == b'\t' {
        at + 1
    } else {
        at
    }
}

// All but the last byte.
fn body(l: &[u8]) -> &[u8]
    ensures { result.now ≡ body_of l.now }
{
    text::start_part(l, l.len().saturating_sub(1))
}

// The fields of the first line, in one pass. The last byte of a text stands in no field: it is a newline, or the last line is of unknown form.
#[tactic(auto, unfolding(crate::specs::Parts::cut_in, crate::specs::Parts::from_at, crate::specs::Parts::to_at))]
pub fn cut_line(s: &[u8]) -> Cut
    ensures { result ≡ cut_of s.now }
{
    let t = body(s);
    let to0 = stop_from(t, 0);
    let from1 = past_tab(t, to0);
    let to1 = stop_from(t, from1);
    let from2 = past_tab(t, to1);
    let to2 = stop_from(t, from2);
    let from3 = past_tab(t, to2);
    let to3 = stop_from(t, from3);
    let from4 = past_tab(t, to3);
    let to4 = stop_from(t, from4);
    let end = end_from(t, to4);
    Cut {
        to0,
        from1,
        to1,
        from2,
        to2,
        from3,
        to3,
        from4,
        to4,
        end,
    }
}

// `filter` and `count` in place of the loop take 64 instructions a line more, of about 3,000.
pub fn tabs_in(l: &[u8]) -> usize
    ensures { (result ≡ tabs_in l.now) × (result ≤ length l.now) }
{
    let mut n = 0;
    for c in l {
        n += usize::from(*c == b'\t');
    }
    n
}
