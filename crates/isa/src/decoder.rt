// The operands of a kind, and the decoder.
ghost use Rattle.std.specs.Prelude.{◌≡◌};
ghost use Rattle.isa.specs.Decode.{imm_of, near_of, far_of, short_if, operands_of, decode_of};

use crate::kinds::kind_of;
use crate::{Decoded, ImmOp, Instr, Kind};
use word::HalfDisp;

fn imm_value(op: ImmOp, n: u32) -> u32
    ensures { result ≡ imm_of op n }
{
    match op {
        ImmOp::And => n,
        ImmOp::Add => word::extend(8, n),
        ImmOp::Mov => word::extend(8, n),
    }
}

fn near(first: u16) -> HalfDisp
    ensures { result ≡ near_of first }
{
    HalfDisp(word::extend(10, first as u32))
}

fn far(first: u16, second: u16) -> HalfDisp
    ensures { result ≡ far_of first second }
{
    HalfDisp(word::extend(26, first as u32 * 65536 + second as u32))
}

fn short_if(t: bool, i: Instr) -> Option<Decoded>
    ensures { result ≡ short_if t i }
{
    t.then_some(Decoded::Short(i))
}

// The operands of a kind, from the bits that its first byte leaves.
#[tactic(auto, unfolding(crate::specs::Decode::operands_of))]
pub fn operands(k: Kind, first: u16, second: u16) -> Option<Decoded>
    ensures { result ≡ operands_of k first second }
{
    let h = first as u32;
    let b = h / 256 % 16;
    let c = h / 16 % 16;
    let d = h % 16;
    match k {
        Kind::Nothing => None,
        Kind::Alu(op) => Some(Decoded::Short(Instr::Alu(op, c, d))),
        Kind::ShiftImm(op) => Some(Decoded::Short(Instr::ShiftImm(op, c, d))),
        Kind::Cmp(op) => Some(Decoded::Short(Instr::Cmp(op, c, d))),
        Kind::CmpImm(op) => Some(Decoded::Short(Instr::CmpImm(op, c, word::extend(4, d)))),
        Kind::Cond(op, t) => Some(Decoded::Short(Instr::Cond(op, t, c, d))),
        Kind::CondImm(t) => Some(Decoded::Short(Instr::CondImm(t, c, word::extend(4, d)))),
        Kind::Ldrpc => Some(Decoded::Short(Instr::Ldrpc(c, b * 16 + d))),
        Kind::Imm(op) => Some(Decoded::Short(Instr::Imm(op, c, imm_value(op, b * 16 + d)))),
        Kind::Load(w) => Some(Decoded::Short(Instr::Load(w, c, b, d))),
        Kind::Store(w) => Some(Decoded::Short(Instr::Store(w, c, b, d))),
        Kind::Mfsfr => short_if(d <= 10, Instr::Mfsfr(c, d)),
        Kind::Mtsfr => short_if(c <= 10, Instr::Mtsfr(c, d)),
        Kind::Jr => short_if(c == 0, Instr::Jr(d)),
        Kind::Jrl => short_if(c == 0, Instr::Jrl(d)),
        Kind::Jsfr => short_if(c == 0 && d <= 3, Instr::Jsfr(d)),
        Kind::Swint => short_if(c == 0, Instr::Swint(d)),
        Kind::ShortJump(op) => Some(Decoded::Short(Instr::ShortJump(op, near(first)))),
        Kind::LongJump(op) => Some(Decoded::Long(Instr::LongJump(op, far(first, second)))),
    }
}

#[tactic(auto, unfolding(crate::specs::Decode::decode_of))]
pub fn decode(first: u16, second: u16) -> Option<Decoded>
    ensures { result ≡ decode_of first second }
{
    operands(kind_of((first / 256) as u8), first, second)
}
