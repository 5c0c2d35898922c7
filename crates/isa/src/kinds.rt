// The kind that a first byte says.
ghost use Rattle.std.specs.Prelude.{◌≡◌, ◌<◌, cond, ◌-◌, ◌/◌, ◌%◌, ltb};
ghost use Rattle.isa.specs.Codes.{kind_in, shift_row, system_row, alu_row, test_row, fixed_row, jump_row, low_kind, kind_of};

use crate::{AluOp, CmpImmOp, CmpOp, CondOp, ImmOp, Kind, LongOp, ShiftOp, ShortOp};
use word::Width;

fn shift_kind(b: u8) -> Kind
    ensures { result ≡ kind_in shift_row b }
{
    match b {
        0 => Kind::Nothing,
        1 => Kind::Nothing,
        2 => Kind::Nothing,
        3 => Kind::Nothing,
        4 => Kind::Nothing,
        5 => Kind::Nothing,
        6 => Kind::Nothing,
        7 => Kind::Nothing,
        8 => Kind::Nothing,
        9 => Kind::Nothing,
        10 => Kind::Nothing,
        11 => Kind::Nothing,
        12 => Kind::ShiftImm(ShiftOp::Lsl),
        13 => Kind::ShiftImm(ShiftOp::Lsr),
        14 => Kind::ShiftImm(ShiftOp::Asr),
        15 => Kind::ShiftImm(ShiftOp::Mult),
        _ => Kind::Nothing,
    }
}

fn system_kind(b: u8) -> Kind
    ensures { result ≡ kind_in system_row b }
{
    match b {
        0 => Kind::Swint,
        1 => Kind::Nothing,
        2 => Kind::Mfsfr,
        3 => Kind::Mtsfr,
        4 => Kind::Nothing,
        5 => Kind::Nothing,
        6 => Kind::Nothing,
        7 => Kind::Nothing,
        8 => Kind::Nothing,
        9 => Kind::Nothing,
        10 => Kind::Nothing,
        11 => Kind::Nothing,
        12 => Kind::Jr,
        13 => Kind::Jrl,
        14 => Kind::Jsfr,
        15 => Kind::Nothing,
        _ => Kind::Nothing,
    }
}

// Rows 0x2? and 0x3?: one match, so that the compiler makes one jump table of both.
fn upper_kind(k: u8) -> Kind
    ensures { result ≡ cond (ltb k 16) (kind_in alu_row k) (kind_in test_row (k - 16)) }
{
    match k {
        0 => Kind::Alu(AluOp::Sub),
        1 => Kind::Alu(AluOp::Add),
        2 => Kind::Alu(AluOp::Subc),
        3 => Kind::Alu(AluOp::Addc),
        4 => Kind::Alu(AluOp::Mov),
        5 => Kind::Alu(AluOp::And),
        6 => Kind::Alu(AluOp::Or),
        7 => Kind::Alu(AluOp::Xor),
        8 => Kind::Alu(AluOp::Sxb),
        9 => Kind::Alu(AluOp::Xhw),
        10 => Kind::Alu(AluOp::Sxh),
        11 => Kind::Alu(AluOp::Zxh),
        12 => Kind::Alu(AluOp::Lsl),
        13 => Kind::Alu(AluOp::Lsr),
        14 => Kind::Alu(AluOp::Asr),
        15 => Kind::Alu(AluOp::Mult),
        16 => Kind::CmpImm(CmpImmOp::Eq),
        17 => Kind::Cmp(CmpOp::Eq),
        18 => Kind::Cmp(CmpOp::Hs),
        19 => Kind::Cmp(CmpOp::Ls),
        20 => Kind::Cmp(CmpOp::Lt),
        21 => Kind::Cmp(CmpOp::Gt),
        22 => Kind::CmpImm(CmpImmOp::Lt),
        23 => Kind::CmpImm(CmpImmOp::Gt),
        24 => Kind::Cond(CondOp::Mov, false),
        25 => Kind::Cond(CondOp::Sub, false),
        26 => Kind::CondImm(false),
        27 => Kind::Cond(CondOp::Add, false),
        28 => Kind::Cond(CondOp::Mov, true),
        29 => Kind::Cond(CondOp::Sub, true),
        30 => Kind::CondImm(true),
        31 => Kind::Cond(CondOp::Add, true),
        _ => Kind::Nothing,
    }
}

fn fixed_kind(k: u8) -> Kind
    ensures { result ≡ kind_in fixed_row k }
{
    match k {
        0 => Kind::Ldrpc,
        1 => Kind::Imm(ImmOp::And),
        2 => Kind::Imm(ImmOp::Add),
        3 => Kind::Imm(ImmOp::Mov),
        4 => Kind::Load(Width::Word),
        5 => Kind::Store(Width::Word),
        6 => Kind::Load(Width::Half),
        7 => Kind::Store(Width::Half),
        8 => Kind::Load(Width::Byte),
        9 => Kind::Store(Width::Byte),
        _ => Kind::Nothing,
    }
}

fn jump_kind(k: u8) -> Kind
    ensures { result ≡ kind_in jump_row k }
{
    match k {
        0 => Kind::LongJump(LongOp::Jf),
        1 => Kind::ShortJump(ShortOp::Sjf),
        2 => Kind::LongJump(LongOp::Jt),
        3 => Kind::ShortJump(ShortOp::Sjt),
        4 => Kind::LongJump(LongOp::J),
        5 => Kind::ShortJump(ShortOp::Sj),
        6 => Kind::LongJump(LongOp::Jl),
        7 => Kind::Nothing,
        _ => Kind::Nothing,
    }
}

// Rows 0x0? to 0x3?.
fn low_kind(byte: u8) -> Kind
    requires { byte < 64 }
    ensures { result ≡ low_kind (byte / 16) (byte % 16) }
{
    if 32 <= byte {
        upper_kind(byte - 32)
    } else if 16 <= byte {
        system_kind(byte - 16)
    } else {
        shift_kind(byte)
    }
}

// Tests lead to a row: two jump tables in a row cost more instructions.
#[tactic(auto, unfolding(crate::specs::Codes::kind_of))]
pub fn kind_of(byte: u8) -> Kind
    ensures { result ≡ kind_of byte }
{
    if byte < 64 {
        low_kind(byte)
    } else if byte < 224 {
        fixed_kind(byte / 16 - 4)
    } else {
        jump_kind(byte / 4 - 56)
    }
}
