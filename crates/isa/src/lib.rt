// The instruction set: instructions by value, the decoder and the encoder.
#![tactic(auto)]

mod decoder;
mod encoder;
mod kinds;

pub use decoder::{decode, operands};
pub use encoder::encode;
pub use kinds::kind_of;
use word::{HalfDisp, Width};

// The number of an operation is its code: the low nibble of the first byte, of ImmOp the high nibble, of a jump the first six bits.

// 0x2?: sub, add, subc and addc set CY; the shifts are by a register.
#[derive(Clone, Copy)]
pub enum AluOp {
    Sub = 0x0,
    Add = 0x1,
    Subc = 0x2,
    Addc = 0x3,
    Mov = 0x4,
    And = 0x5,
    Or = 0x6,
    Xor = 0x7,
    Sxb = 0x8,
    Xhw = 0x9,
    Sxh = 0xa,
    Zxh = 0xb,
    Lsl = 0xc,
    Lsr = 0xd,
    Asr = 0xe,
    Mult = 0xf,
}

// 0x0?: by an immediate.
// Each format below has an enum of the operations that it has, so that no instruction can be made that has no bits.
#[derive(Clone, Copy)]
pub enum ShiftOp {
    Lsl = 0xc,
    Lsr = 0xd,
    Asr = 0xe,
    Mult = 0xf,
}

// 0x3?, as the next two.
#[derive(Clone, Copy)]
pub enum CmpOp {
    Eq = 0x1,
    Hs = 0x2,
    Ls = 0x3,
    Lt = 0x4,
    Gt = 0x5,
}

#[derive(Clone, Copy)]
pub enum CmpImmOp {
    Eq = 0x0,
    Lt = 0x6,
    Gt = 0x7,
}

// The code is that of the form that wants TF 0; bit 2 is the value of TF that is wanted.
#[derive(Clone, Copy)]
pub enum CondOp {
    Mov = 0x8,
    Sub = 0x9,
    Add = 0xb,
}

#[derive(Clone, Copy)]
pub enum ImmOp {
    And = 0x5,
    Add = 0x6,
    Mov = 0x7,
}

#[derive(Clone, Copy)]
pub enum ShortOp {
    Sjf = 0x39,
    Sjt = 0x3b,
    Sj = 0x3d,
}

#[derive(Clone, Copy)]
pub enum LongOp {
    Jf = 0x38,
    Jt = 0x3a,
    J = 0x3c,
    Jl = 0x3e,
}

// An instruction with its operands, in the order of the guide's syntax. Signed operands are modulo 2^32.
#[derive(Clone, Copy)]
pub enum Instr {
    // Rd, Rb
    Alu(AluOp, u32, u32),
    // lsli, lsri, asri, multi: Rd, UIMM4
    ShiftImm(ShiftOp, u32, u32),
    // Rd, Rb
    Cmp(CmpOp, u32, u32),
    // Rd, SIMM4
    CmpImm(CmpImmOp, u32, u32),
    // movf, subf, addf, movt, subt, addt: the value of TF that it wants, Rd, Rb
    Cond(CondOp, bool, u32, u32),
    // addif, addit: the value of TF that it wants, Rd, SIMM4
    CondImm(bool, u32, u32),
    // Rd, UIMM8 in words
    Ldrpc(u32, u32),
    // andi Rd, UIMM8; addi and movi Rd, SIMM8
    Imm(ImmOp, u32, u32),
    // Rd, UIMM4 in units of the width, Rb
    Load(Width, u32, u32, u32),
    Store(Width, u32, u32, u32),
    // Rd, SFR
    Mfsfr(u32, u32),
    // SFR, Rb
    Mtsfr(u32, u32),
    // Rb
    Jr(u32),
    Jrl(u32),
    // SFR
    Jsfr(u32),
    Swint(u32),
    ShortJump(ShortOp, HalfDisp),
    LongJump(LongOp, HalfDisp),
}

// What a first byte says. `Nothing` is a kind too, and no `None`: the rows of the opcode map (`kind_in` of specs/Codes.antt) name one for each byte.
#[derive(Clone, Copy)]
pub enum Kind {
    Nothing,
    Alu(AluOp),
    ShiftImm(ShiftOp),
    Cmp(CmpOp),
    CmpImm(CmpImmOp),
    Cond(CondOp, bool),
    CondImm(bool),
    Ldrpc,
    Imm(ImmOp),
    Load(Width),
    Store(Width),
    Mfsfr,
    Mtsfr,
    Jr,
    Jrl,
    Jsfr,
    Swint,
    ShortJump(ShortOp),
    LongJump(LongOp),
}

// An instruction of two bytes or of four.
#[derive(Clone, Copy)]
pub enum Decoded {
    Short(Instr),
    Long(Instr),
}

// The bits of an instruction: one half or two.
#[derive(Clone, Copy)]
pub enum Encoded {
    Half(u16),
    Pair(u16, u16),
}
