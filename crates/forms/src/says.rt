// What a line says: the instruction or the data, and its bits.
ghost use Rattle.std.specs.Prelude.{◌≡◌, false};
ghost use Rattle.word.specs.Numbers.{difference_of};
ghost use Rattle.forms.specs.Says.{bits_of, scaled, halves_to, words_to, says_of, bits_said, bits_at};

use crate::What;
use isa::{Decoded, Encoded, Instr, Kind};
use word::{ByteAddr, HalfDisp, Width};

// What fits no place: in no field's range. It is no `None`, since the definitions scaled, halves_to and words_to say this number.
const UNFIT: u32 = 1073741824;

#[tactic(auto, using(crate::proofs::Laws::cast_is))]
pub fn bits_of(z: i32) -> u32
    ensures { result ≡ bits_of z }
{
    z.cast_unsigned()
}

#[tactic(auto, unfolding(crate::specs::Says::scaled))]
fn scale(w: Width, v: u32) -> u32
    ensures { result ≡ scaled w v }
{
    match w {
        Width::Byte => v,
        Width::Half if v % 2 == 0 => v / 2,
        Width::Word if v % 4 == 0 => v / 4,
        _ => UNFIT,
    }
}

fn distance(v: u32, from: u32) -> u32
    ensures { result ≡ difference_of v from false }
{
    word::sub(v, from, false).value
}

#[tactic(auto, unfolding(crate::specs::Says::halves_to))]
fn halves_to(at: ByteAddr, v: u32) -> HalfDisp
    ensures { result ≡ halves_to at v }
{
    let far = distance(v, at.0);
    HalfDisp(if far % 2 == 0 {
        word::asr(far, 1)
    } else {
        UNFIT
    })
}

#[tactic(auto, unfolding(crate::specs::Says::words_to))]
fn words_to(at: ByteAddr, v: u32) -> u32
    ensures { result ≡ words_to at v }
{
    if v % 4 == 0 {
        distance(v, word::align(Width::Word, at).0) / 4
    } else {
        UNFIT
    }
}

#[tactic(auto, unfolding(crate::specs::Says::says_of))]
fn says(k: Kind, at: ByteAddr, x: u32, y: u32, z: u32, v: u32) -> Option<Decoded>
    ensures { result ≡ says_of k at x y z v }
{
    match k {
        Kind::Nothing => None,
        Kind::Alu(op) => Some(Decoded::Short(Instr::Alu(op, x, y))),
        Kind::ShiftImm(op) => Some(Decoded::Short(Instr::ShiftImm(op, x, v))),
        Kind::Cmp(op) => Some(Decoded::Short(Instr::Cmp(op, x, y))),
        Kind::CmpImm(op) => Some(Decoded::Short(Instr::CmpImm(op, x, v))),
        Kind::Cond(op, t) => Some(Decoded::Short(Instr::Cond(op, t, x, y))),
        Kind::CondImm(t) => Some(Decoded::Short(Instr::CondImm(t, x, v))),
        Kind::Ldrpc => Some(Decoded::Short(Instr::Ldrpc(x, words_to(at, v)))),
        Kind::Imm(op) => Some(Decoded::Short(Instr::Imm(op, x, v))),
        Kind::Load(w) => Some(Decoded::Short(Instr::Load(w, x, scale(w, v), z))),
        Kind::Store(w) => Some(Decoded::Short(Instr::Store(w, x, scale(w, v), z))),
        Kind::Mfsfr => Some(Decoded::Short(Instr::Mfsfr(x, y))),
        Kind::Mtsfr => Some(Decoded::Short(Instr::Mtsfr(x, y))),
        Kind::Jr => Some(Decoded::Short(Instr::Jr(x))),
        Kind::Jrl => Some(Decoded::Short(Instr::Jrl(x))),
        Kind::Jsfr => Some(Decoded::Short(Instr::Jsfr(x))),
        Kind::Swint => Some(Decoded::Short(Instr::Swint(v))),
        Kind::ShortJump(op) => Some(Decoded::Short(Instr::ShortJump(op, halves_to(at, v)))),
        Kind::LongJump(op) => Some(Decoded::Long(Instr::LongJump(op, halves_to(at, v)))),
    }
}

#[tactic(auto, unfolding(crate::specs::Says::bits_said))]
fn bits_said(d: Option<Decoded>) -> Option<Encoded>
    ensures { result ≡ bits_said d }
{
    match d? {
        Decoded::Short(i) | Decoded::Long(i) => isa::encode(i),
    }
}

#[tactic(auto, unfolding(crate::specs::Says::bits_at))]
pub fn bits_at(w: What, at: ByteAddr, x: u32, y: u32, z: u32, v: u32) -> Option<Encoded>
    ensures { result ≡ bits_at w at x y z v }
{
    match w {
        What::Code(k) => bits_said(says(k, at, x, y, z, v)),
        What::Half => u16::try_from(v).ok().map(Encoded::Half),
        What::Word => Some(Encoded::Pair((v / 65536) as u16, (v % 65536) as u16)),
    }
}
