// The bits of an instruction.
ghost use Rattle.std.specs.Prelude.{◌≡◌};
ghost use Rattle.isa.specs.Codes.{cond_no, cond_imm_no, load_no, store_no};
ghost use Rattle.isa.specs.Encode.{only, nibs_of, nibs_signed, nibs_byte, nibs_signed_byte, encode_imm, encode_short, encode_long, encode_of};

use crate::{CondOp, Encoded, ImmOp, Instr, LongOp, ShortOp};
use word::{HalfDisp, Width};

fn cond_no(op: CondOp, t: bool) -> u32
    ensures { result ≡ cond_no op t }
{
    op as u32 + u32::from(t) * 4
}

fn cond_imm_no(t: bool) -> u32
    ensures { result ≡ cond_imm_no t }
{
    10 + u32::from(t) * 4
}

fn load_no(w: Width) -> u32
    ensures { result ≡ load_no w }
{
    match w {
        Width::Word => 8,
        Width::Half => 10,
        Width::Byte => 12,
    }
}

fn store_no(w: Width) -> u32
    ensures { result ≡ store_no w }
{
    load_no(w) + 1
}

fn when(t: bool, e: Option<Encoded>) -> Option<Encoded>
    ensures { result ≡ only t e }
{
    if t { e } else { None }
}

#[tactic(auto, unfolding(crate::specs::Encode::nibs_of))]
fn nibs(a: u32, b: u32, c: u32, d: u32) -> Option<Encoded>
    ensures { result ≡ nibs_of a b c d }
{
    if a < 16 && b < 16 && c < 16 && d < 16 {
        Some(Encoded::Half((a * 4096 + b * 256 + c * 16 + d) as u16))
    } else {
        None
    }
}

#[tactic(auto, unfolding(crate::specs::Encode::nibs_signed))]
fn nibs_signed(b: u32, c: u32, x: u32) -> Option<Encoded>
    ensures { result ≡ nibs_signed b c x }
{
    when(word::fits(4, x), nibs(3, b, c, x % 16))
}

#[tactic(auto, unfolding(crate::specs::Encode::nibs_byte))]
fn nibs_byte(a: u32, c: u32, n: u32) -> Option<Encoded>
    ensures { result ≡ nibs_byte a c n }
{
    when(n < 256, nibs(a, n / 16, c, n % 16))
}

#[tactic(auto, unfolding(crate::specs::Encode::nibs_signed_byte))]
fn nibs_signed_byte(a: u32, c: u32, x: u32) -> Option<Encoded>
    ensures { result ≡ nibs_signed_byte a c x }
{
    when(word::fits(8, x), nibs_byte(a, c, x % 256))
}

#[tactic(auto, unfolding(crate::specs::Encode::encode_imm))]
fn encode_imm(op: ImmOp, c: u32, x: u32) -> Option<Encoded>
    ensures { result ≡ encode_imm op c x }
{
    match op {
        ImmOp::And => nibs_byte(op as u32, c, x),
        ImmOp::Add | ImmOp::Mov => nibs_signed_byte(op as u32, c, x),
    }
}

#[tactic(auto, unfolding(crate::specs::Encode::encode_short))]
fn encode_short(op: ShortOp, d: HalfDisp) -> Option<Encoded>
    ensures { result ≡ encode_short op d }
{
    let x = d.0;
    let bits = op as u32 * 1024 + x % 1024;
    word::fits(10, x).then_some(Encoded::Half(bits as u16))
}

#[tactic(auto, unfolding(crate::specs::Encode::encode_long))]
fn encode_long(op: LongOp, d: HalfDisp) -> Option<Encoded>
    ensures { result ≡ encode_long op d }
{
    let x = d.0;
    let bits = x % 67108864;
    let first = op as u32 * 1024 + bits / 65536;
    word::fits(26, x).then_some(Encoded::Pair(first as u16, (bits % 65536) as u16))
}

#[tactic(auto, unfolding(crate::specs::Encode::encode_of))]
pub fn encode(i: Instr) -> Option<Encoded>
    ensures { result ≡ encode_of i }
{
    match i {
        Instr::Alu(op, c, d) => nibs(2, op as u32, c, d),
        Instr::ShiftImm(op, c, d) => nibs(0, op as u32, c, d),
        Instr::Cmp(op, c, d) => nibs(3, op as u32, c, d),
        Instr::CmpImm(op, c, x) => nibs_signed(op as u32, c, x),
        Instr::Cond(op, t, c, d) => nibs(3, cond_no(op, t), c, d),
        Instr::CondImm(t, c, x) => nibs_signed(cond_imm_no(t), c, x),
        Instr::Ldrpc(c, n) => nibs_byte(4, c, n),
        Instr::Imm(op, c, x) => encode_imm(op, c, x),
        Instr::Load(w, c, b, d) => nibs(load_no(w), b, c, d),
        Instr::Store(w, c, b, d) => nibs(store_no(w), b, c, d),
        Instr::Mfsfr(c, d) => when(d <= 10, nibs(1, 2, c, d)),
        Instr::Mtsfr(c, d) => when(c <= 10, nibs(1, 3, c, d)),
        Instr::Jr(d) => nibs(1, 12, 0, d),
        Instr::Jrl(d) => nibs(1, 13, 0, d),
        Instr::Jsfr(d) => when(d <= 3, nibs(1, 14, 0, d)),
        Instr::Swint(d) => nibs(1, 0, 0, d),
        Instr::ShortJump(op, d) => encode_short(op, d),
        Instr::LongJump(op, d) => encode_long(op, d),
    }
}
