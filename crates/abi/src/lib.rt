// The static library: one call runs the machine on a state that lies in a record of 160 bytes. include/manik.h is its C header.
#![tactic(auto)]

ghost use Rattle.std.specs.Prelude.{◌≡◌, ◌&&◌, ℕ, ◌+◌, ◌*◌, ◌≤◌, length, map, nat_lt};
ghost use Rattle.std.proofs.lemmas.List.Edits.{sets};
ghost use Rattle.word.specs.Bits.{num};
ghost use Rattle.word.specs.Bytes.{bytes_of, load_of};
ghost use Rattle.word.specs.declared.Width.{Width};
ghost use Rattle.marks.specs.Memory.{bits};
ghost use Rattle.abi.specs.Record.{each, control_at, state_at, laid, control_part, record_in, within, shaped};
ghost use Rattle.abi.specs.Call.{called};

use cpu::Control;
use machine::State;
use marks::Flags;
use word::{ByteAddr, Width};

// What the record holds: a number, in four bytes, or a flag, in one.
trait Field: Copy {
    ghost width: { Width };

    ghost read: { ℕ → Self };

    ghost number: { Self → ℕ };

    fn width() -> Width
        ensures { result ≡ width };

    fn read(n: u32) -> Self
        ensures { result ≡ read n };

    fn number(self) -> u32
        ensures { result ≡ number self };
}

impl Field for u32 {
    ghost width = { Width.Word };

    ghost read = { λ n. n };

    ghost number = { λ n. n };

    fn width() -> Width {
        Width::Word
    }

    fn read(n: u32) -> u32 {
        n
    }

    fn number(self) -> u32 {
        self
    }
}

impl Field for bool {
    ghost width = { Width.Byte };

    ghost read = { λ n. nat_lt 0 n };

    ghost number = { num };

    fn width() -> Width {
        Width::Byte
    }

    fn read(n: u32) -> bool {
        0 < n
    }

    fn number(self) -> u32 {
        u32::from(self)
    }
}

// ---- a state from its record

fn at<T: Field>(r: &[u8], at: u32) -> T
    ensures { result ≡ T.read (load_of T.width r.now (record { 0 = at })) }
{
    T::read(word::load(T::width(), r, ByteAddr(at)))
}

// Sixteen of them, one behind the other. By array::from_fn, and map on the way back, a call of one step takes 1,452 instructions in place of 691.
fn sixteen_at<T: Field>(r: &[u8], from: u32) -> [T; 16]
    requires { from ≤ 160 }
    ensures { result ≡ each (λ a. T.read (load_of T.width r.now (record { 0 = a }))) (bytes_of T.width) 16 from }
{
    let size = word::bytes(T::width());
    let mut all = [T::read(0); 16];
    for i in 0..16 {
        all[i] = at(r, from + size * i as u32);
    }
    all
}

fn control_at(r: &[u8]) -> Control
    ensures { result ≡ control_at r.now }
{
    Control {
        pc: at(r, 80),
        psw: at(r, 84),
        pending: at(r, 90),
        ra: at(r, 92),
        ipc: at(r, 96),
        timer: at(r, 100),
        ibase: at(r, 104),
        usreg: at(r, 108),
        hwdbg: at(r, 112),
        bp0: at(r, 116),
        bp1: at(r, 120),
        wp0: at(r, 124),
        wp1: at(r, 128),
        cycles: at(r, 132),
    }
}

// The state that a record holds.
pub fn state_at(r: &[u8]) -> State
    ensures { result ≡ state_at r.now }
{
    State {
        regs: sixteen_at(r, 0),
        marks: sixteen_at(r, 64),
        flags: Flags {
            tf: at(r, 88),
            cy: at(r, 89),
        },
        control: control_at(r),
    }
}

// ---- a record from its state

// Fields one behind the other. No record is long, so the offsets fit.
fn put<T: Field>(r: &mut [u8], at: u32, l: &[T])
    requires { (at + bytes_of T.width * length l.now ≤ length r.old) × (length r.old ≤ 160) }
    ensures { r.new ≡ sets r.old at (laid (bytes_of T.width) (map T.number l.now)) }
{
    let size = word::bytes(T::width());
    let mut to = at;
    for x in l {
        word::store(T::width(), r, ByteAddr(to), x.number());
        to += size;
    }
}

// A byte that is zero is a flag that is not set.
fn put_control(r: &mut [u8], f: Flags, c: Control)
    requires { length r.old ≡ 160 }
    ensures { r.new ≡ sets r.old 80 (control_part f c) }
{
    put(r, 80, &[c.pc, c.psw]);
    put(r, 88, &[f.tf, f.cy, c.pending, false]);
    put(
        r,
        92,
        &[
            c.ra, c.ipc, c.timer, c.ibase, c.usreg, c.hwdbg, c.bp0, c.bp1, c.wp0, c.wp1, c.cycles,
        ],
    );
    put(r, 136, &[false; 24]);
}

fn put_state(r: &mut [u8], s: State)
    ensures { r.new ≡ record_in s r.old }
{
    if r.len() == 160 {
        put(r, 0, &s.regs);
        put(r, 64, &s.marks);
        put_control(r, s.flags, s.control);
    }
}

// ---- the call

fn is_within(limit: u8, at: usize, n: usize, r: &[u8]) -> bool
    requires { at + n ≤ length r.now }
    ensures { result ≡ within limit at n r.now }
{
    !word::has_above(limit, &r[at..at + n])
}

// The length, marks and flags of 0 or 1, and zero where zero stands. By `&` all bytes are looked at, many at once: by `&&` a call of one step takes 752
// instructions in place of 694.
pub fn is_shaped(r: &[u8]) -> bool
    ensures { result ≡ shaped r.now }
{
    r.len() == 160
        && is_within(1, 64, 16, r)
            & is_within(1, 88, 3, r)
            & is_within(0, 91, 1, r)
            & is_within(0, 136, 24, r)
}

// Reply 0 where there is no record; else the run of the state that it holds, with document 01's reply number.
pub fn manik_run(
    state: &mut [u8],
    mem: &mut [u8],
    marks: &mut [u8],
    tape: &[u8],
    budget: u64,
    steps: &mut u64,
) -> u32
    ensures value { result ≡ (called state.old mem.old (bits marks.old) tape.now budget).reply }
    ensures steps_after { steps.new ≡ (called state.old mem.old (bits marks.old) tape.now budget).steps }
    ensures state_after { state.new ≡ (called state.old mem.old (bits marks.old) tape.now budget).state }
    ensures mem_after { mem.new ≡ (called state.old mem.old (bits marks.old) tape.now budget).mem }
    ensures marks_after { bits marks.new ≡ (called state.old mem.old (bits marks.old) tape.now budget).marks }
{
    if is_shaped(state) {
        let ended = machine::run::run(budget as usize, tape, state_at(state), mem, marks);
        let reply = ended.reply;
        let after = ended.state;
        *steps = ended.steps as u64;
        put_state(state, after);
        return instruction::number(reply);
    }
    *steps = 0;
    0
}
