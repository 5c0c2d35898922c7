// How far the walk over a text has come.
ghost use Rattle.std.specs.Prelude.{◌≤◌};

// Whether an operand is wanted next, whether a minus may stand before it, how many parentheses are open, and the place. Two flags
// and no enum of three: `walk` of specs/Parts.antt takes the two, and the must-fail edit two_minuses changes the second.
#[derive(Clone, Copy)]
pub struct Turn {
    pub wanted: bool,
    pub minus: bool,
    pub depth: usize,
    pub at: usize,
    ghost within: { depth ≤ at },
}
