// The export of the static library libabi.a. include/manik.h is its C header.
#![tactic(auto)]

ghost use Rattle.std.specs.Prelude.{◌≡◌};
ghost use Rattle.marks.specs.Memory.{bits};
ghost use Rattle.abi.specs.Call.{called};

#[unsafe(no_mangle)]
pub extern "C" fn manik_run(
    state: &mut [u8],
    mem: &mut [u8],
    marks: &mut [u8],
    tape: &[u8],
    budget: u64,
    steps: &mut u64,
) -> u32
    ensures value { result ≡ (called state.old mem.old (bits marks.old) tape.now budget).reply }
    ensures steps_after { steps.new ≡ (called state.old mem.old (bits marks.old) tape.now budget).steps }
    ensures state_after { state.new ≡ (called state.old mem.old (bits marks.old) tape.now budget).state }
    ensures mem_after { mem.new ≡ (called state.old mem.old (bits marks.old) tape.now budget).mem }
    ensures marks_after { bits marks.new ≡ (called state.old mem.old (bits marks.old) tape.now budget).marks }
{
    abi::manik_run(state, mem, marks, tape, budget, steps)
}
