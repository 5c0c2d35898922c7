// The export of the static library libabi_show.a. include/manik.h is its C header.
#![tactic(auto)]

ghost use Rattle.std.specs.Prelude.{◌≡◌};
ghost use Rattle.marks.specs.Memory.{bits};
ghost use Rattle.abi_show.specs.Show.{show_of};

#[unsafe(no_mangle)]
pub extern "C" fn manik_show(
    state: &[u8],
    mem: &[u8],
    marks: &[u8],
    lines: u8,
    line: &mut [u8],
) -> u32
    ensures value { result ≡ (show_of state.now mem.now (bits marks.now) lines line.old).found }
    ensures line_after { line.new ≡ (show_of state.now mem.now (bits marks.now) lines line.old).line }
{
    abi_show::manik_show(state, mem, marks, lines, line)
}
