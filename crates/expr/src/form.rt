// The form of a sum, however many parentheses are open: a loop and no cycle of calls, so that no text is too deep for the stack.
ghost use Rattle.std.specs.Prelude.{◌≡◌, true, false, ◌&&◌, ◌+◌, ◌≤◌, ◌<◌, IfSome, eqb, length, drop};
ghost use Rattle.expr.specs.Expr.{size_of, leaf_of, none, is_sum};
ghost use Rattle.expr.specs.Parts.{walk, told_by};

use crate::cycle::is_adding;
use crate::leaves::leaf;
use crate::turn::Turn;

// How many bytes of a number or a label lead. Whatever labels mean, their form is the same. No Option: `size_of` of specs/Expr.antt is 0 for what is not read, and
// `walk` of specs/Parts.antt asks for that 0.
fn leaf_size(s: &[u8]) -> usize
    ensures { (result ≡ size_of (leaf_of none s.now)) × (result ≤ length s.now) }
{
    match leaf(s, &[]) {
        Ok((_, n)) => n,
        Err(_) => 0,
    }
}

// At a byte where an operand is wanted.
fn wanting(s: &[u8], turn: Turn) -> Option<Turn>
    requires { turn.at < length s.now }
    ensures told { told_by s.now result ≡ walk true turn.minus turn.depth 0 (drop turn.at s.now) }
    ensures further { IfSome result (λ next. (turn.at < next.at) × (next.at ≤ length s.now)) }
{
    let depth = turn.depth;
    let at = turn.at;
    let c = s[at];
    if c == b'(' {
        return Some(Turn {
            wanted: true,
            minus: true,
            depth: depth + 1,
            at: at + 1,
        });
    }
    if turn.minus && c == b'-' {
        return Some(Turn {
            wanted: true,
            minus: false,
            depth,
            at: at + 1,
        });
    }
    let n = leaf_size(&s[at..]);
    if n == 0 {
        return None;
    }
    Some(Turn {
        wanted: false,
        minus: false,
        depth,
        at: at + n,
    })
}

// At a byte after an operand.
fn after(s: &[u8], turn: Turn) -> Option<Turn>
    requires { turn.at < length s.now }
    ensures told { told_by s.now result ≡ walk false false turn.depth 0 (drop turn.at s.now) }
    ensures further { IfSome result (λ next. (turn.at < next.at) × (next.at ≤ length s.now)) }
{
    let depth = turn.depth;
    let at = turn.at;
    let c = s[at];
    if c == b'*' || is_adding(c) {
        return Some(Turn {
            wanted: true,
            minus: true,
            depth,
            at: at + 1,
        });
    }
    if c == b')' && 0 < depth {
        return Some(Turn {
            wanted: false,
            minus: false,
            depth: depth - 1,
            at: at + 1,
        });
    }
    None
}

fn step(s: &[u8], turn: Turn) -> Option<Turn>
    requires { turn.at < length s.now }
    ensures told { told_by s.now result ≡ walk turn.wanted turn.minus turn.depth 0 (drop turn.at s.now) }
    ensures further { IfSome result (λ next. (turn.at < next.at) × (next.at ≤ length s.now)) }
{
    if turn.wanted {
        wanting(s, turn)
    } else {
        after(s, turn)
    }
}

pub fn is_sum(s: &[u8]) -> bool
    ensures { result ≡ is_sum s.now }
{
    let mut turn = Turn {
        wanted: true,
        minus: true,
        depth: 0,
        at: 0,
    };
    // No `for` fits: a step moves by one byte, or by as many as a number or a label has.
    while turn.at < s.len() {
        let Some(next) = step(s, turn) else {
            return false;
        };
        turn = next;
    }
    !turn.wanted && turn.depth == 0
}
