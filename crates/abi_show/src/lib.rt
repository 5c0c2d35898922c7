// The static library's look at a step: the line that the next step would show, without making it. It is an archive of its own, since the decoder
// is laid into the machine's loop only where nothing else in the archive calls it. include/manik.h is its C header.
#![tactic(auto)]

ghost use Rattle.std.specs.Prelude.{◌≡◌, [], ◌∷◌};
ghost use Rattle.word.specs.Bits.{num};
ghost use Rattle.marks.specs.Memory.{bits};
ghost use Rattle.abi_show.specs.Show.{letter_of, detail_of, is_at, address_of, placed, written_to, look_of, show_of};

use cpu::Entry;
use machine::{Line, State};
use word::{ByteAddr, Width};

fn letter(e: Entry) -> u8
    ensures { result ≡ letter_of e }
{
    match e {
        Entry::Nothing => b'-',
        Entry::Swint(_) => b's',
        Entry::Debug(_) => b'd',
        Entry::Timer => b't',
        Entry::External(_) => b'e',
        Entry::FetchError | Entry::DataError => b'b',
    }
}

fn detail(e: Entry) -> u32
    ensures { result ≡ detail_of e }
{
    match e {
        Entry::Nothing | Entry::Timer => 0,
        Entry::Swint(n) | Entry::Debug(n) | Entry::External(n) => n,
        Entry::FetchError => 15,
        Entry::DataError => 14,
    }
}

fn has_address(a: Option<ByteAddr>) -> bool
    ensures { num result ≡ is_at a }
{
    a.is_some()
}

fn address(a: Option<ByteAddr>) -> u32
    ensures { result ≡ address_of a }
{
    a.map_or(0, |at| at.0)
}

fn place(w: Width, out: &mut [u8], at: u32, v: u32)
    ensures { out.new ≡ placed w out.old at v }
{
    word::store(w, out, ByteAddr(at), v);
}

fn write_line(x: Line, out: &mut [u8])
    ensures { out.new ≡ written_to x out.old }
{
    place(Width::Word, out, 0, x.pc.0);
    place(Width::Word, out, 4, address(x.address));
    place(Width::Byte, out, 8, u32::from(has_address(x.address)));
    place(Width::Byte, out, 9, u32::from(letter(x.entry)));
    place(Width::Byte, out, 10, detail(x.entry));
    place(Width::Byte, out, 11, 0);
}

// What a run with a budget of 1 would show.
fn look(lines: u8, s: State, m: &[u8], mk: &[u8]) -> Option<Line>
    ensures { result ≡ look_of lines s m.now (bits mk.now) }
{
    match machine::judge_all(1, &[lines], s, m, mk) {
        Err(_) => None,
        Ok(()) => trace::show(u32::from(lines), s, m, mk),
    }
}

// 1 and the line, or 0 and nothing written: what is no record, what would be refused, and a step that would stop.
pub fn manik_show(state: &[u8], mem: &[u8], marks: &[u8], lines: u8, line: &mut [u8]) -> u32
    ensures value { result ≡ (show_of state.now mem.now (bits marks.now) lines line.old).found }
    ensures line_after { line.new ≡ (show_of state.now mem.now (bits marks.now) lines line.old).line }
{
    if line.len() == 12 && abi::is_shaped(state) {
        if let Some(x) = look(lines, abi::state_at(state), mem, marks) {
            write_line(x, line);
            return 1;
        }
    }
    0
}
