// The mnemonic of a first half, and an instruction's operands.
ghost use Rattle.std.specs.Prelude.{◌<◌};

use isa::Instr;
use word::HalfDisp;

// The mnemonics are numbered in the order of their first bytes; the last number is for what is no instruction.
pub const MNEMONICS: usize = 60;

// No Option: what is no instruction is counted and written as a row of the table too, so each None would be made this row's number again.
pub const NONE: usize = 59;

pub const NAMES: [&str; MNEMONICS] = [
    "lsli", "lsri", "asri", "multi", "swint", "mfsfr", "mtsfr", "jr", "jrl", "jsfr", "sub", "add",
    "subc", "addc", "mov", "and", "or", "xor", "sxb", "xhw", "sxh", "zxh", "lsl", "lsr", "asr",
    "mult", "cmpeqi", "cmpeq", "cmphs", "cmpls", "cmplt", "cmpgt", "cmplti", "cmpgti", "movf",
    "subf", "addif", "addf", "movt", "subt", "addit", "addt", "ldrpc", "andi", "addi", "movi",
    "ldr", "str", "ldrh", "strh", "ldrb", "strb", "jf", "sjf", "jt", "sjt", "j", "sj", "jl",
    "none",
];

pub fn mnemonic(first: u16) -> usize
    ensures { result < 60 }
{
    let n = usize::from(first / 256);
    match n {
        12..=15 => n - 12,
        16 => 4,
        18..=19 => n - 13,
        28..=30 => n - 21,
        32..=63 => n - 22,
        64..=223 => n / 16 + 38,
        224..=251 => n / 4 - 4,
        _ => NONE,
    }
}

// Those that an instruction lacks are 0.
pub fn operands(i: Instr) -> [u32; 3] {
    match i {
        Instr::Load(_, a, b, c) | Instr::Store(_, a, b, c) => [a, b, c],
        Instr::Alu(_, a, b)
        | Instr::ShiftImm(_, a, b)
        | Instr::Cmp(_, a, b)
        | Instr::CmpImm(_, a, b)
        | Instr::Cond(_, _, a, b)
        | Instr::CondImm(_, a, b)
        | Instr::Ldrpc(a, b)
        | Instr::Imm(_, a, b)
        | Instr::Mfsfr(a, b)
        | Instr::Mtsfr(a, b) => [a, b, 0],
        Instr::Jr(a) | Instr::Jrl(a) | Instr::Jsfr(a) | Instr::Swint(a) => [a, 0, 0],
        Instr::ShortJump(_, d) | Instr::LongJump(_, d) => [d.0, 0, 0],
    }
}

// The same instruction with other operands.
pub fn with_operands(i: Instr, operands: [u32; 3]) -> Instr {
    let [a, b, c] = operands;
    match i {
        Instr::Alu(op, _, _) => Instr::Alu(op, a, b),
        Instr::ShiftImm(op, _, _) => Instr::ShiftImm(op, a, b),
        Instr::Cmp(op, _, _) => Instr::Cmp(op, a, b),
        Instr::CmpImm(op, _, _) => Instr::CmpImm(op, a, b),
        Instr::Cond(op, t, _, _) => Instr::Cond(op, t, a, b),
        Instr::CondImm(t, _, _) => Instr::CondImm(t, a, b),
        Instr::Ldrpc(_, _) => Instr::Ldrpc(a, b),
        Instr::Imm(op, _, _) => Instr::Imm(op, a, b),
        Instr::Load(w, _, _, _) => Instr::Load(w, a, b, c),
        Instr::Store(w, _, _, _) => Instr::Store(w, a, b, c),
        Instr::Mfsfr(_, _) => Instr::Mfsfr(a, b),
        Instr::Mtsfr(_, _) => Instr::Mtsfr(a, b),
        Instr::Jr(_) => Instr::Jr(a),
        Instr::Jrl(_) => Instr::Jrl(a),
        Instr::Jsfr(_) => Instr::Jsfr(a),
        Instr::Swint(_) => Instr::Swint(a),
        Instr::ShortJump(op, _) => Instr::ShortJump(op, HalfDisp(a)),
        Instr::LongJump(op, _) => Instr::LongJump(op, HalfDisp(a)),
    }
}

pub fn operand_count(i: Instr) -> usize {
    match i {
        Instr::Load(..) | Instr::Store(..) => 3,
        Instr::Jr(_) | Instr::Jrl(_) | Instr::Jsfr(_) | Instr::Swint(_) => 1,
        Instr::ShortJump(..) | Instr::LongJump(..) => 1,
        _ => 2,
    }
}
