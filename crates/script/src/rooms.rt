// The room for memory, and the tape.
ghost use Rattle.std.specs.Prelude.{◌≡◌};
ghost use Rattle.script.specs.Line.{blank};

#[tactic(auto, unfolding(crate::specs::Line::blank))]
pub fn zeros() -> [u8; 16384]
    ensures { result ≡ blank }
{
    [0u8; 16384]
}
