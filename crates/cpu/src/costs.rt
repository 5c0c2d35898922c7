// What shifts cost in cycles, by their amount.
#![tactic(auto, unfolding(crate::specs::Cycles::shift_cost))]

ghost use Rattle.std.specs.Prelude.{◌≡◌};
ghost use Rattle.cpu.specs.Cycles.{shift_cost};

pub fn shift_cost(n: u32) -> u8
    ensures { result ≡ shift_cost n }
{
    match n {
        0..8 => 2,
        8..16 => 3,
        16..24 => 4,
        _ => 5,
    }
}
