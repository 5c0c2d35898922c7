// ALU, shifts, compares and immediates; each says what exec says of it.
#![tactic(auto, unfolding(crate::specs::Exec::exec, crate::specs::Exec::makes, crate::specs::Cycles::cost_of, crate::specs::Cycles::alu_cost, crate::specs::Cycles::shift_imm_cost, crate::specs::Exec::alu_of, crate::specs::Exec::carried, crate::specs::Exec::cmp_of, crate::specs::Exec::cmp_imm_of, crate::specs::Exec::cond_of, crate::specs::Exec::imm_value, crate::specs::Exec::shift_of))]

ghost use Rattle.std.specs.Prelude.{◌≡◌, if◌then◌else◌};
ghost use Rattle.word.specs.declared.Width.{Width};
ghost use Rattle.isa.specs.declared.Instr.{Instr};
ghost use Rattle.cpu.specs.Exec.{cond_of, puts_reg, costing, exec};

use crate::costs::shift_cost;
use crate::effects::{go_on, is_wanted, move_to, set_at, set_if, set_reg, set_sum, set_tf};
use crate::{Control, Effect};
use isa::{AluOp, CmpImmOp, CmpOp, CondOp, ImmOp, ShiftOp};

pub fn alu(op: AluOp, d: u32, x: u32, y: u32, c: Control) -> Effect
    ensures { result ≡ exec (Instr.Alu op d 0) x y 0 c }
{
    match op {
        AluOp::Sub => set_sum(d, word::sub(x, y, false), c),
        AluOp::Add => set_sum(d, word::add(x, y, false), c),
        AluOp::Subc => set_sum(d, word::sub(x, y, word::is_on(c.psw, 9)), c),
        AluOp::Addc => set_sum(d, word::add(x, y, word::is_on(c.psw, 9)), c),
        AluOp::Mov => set_reg(d, y, c),
        AluOp::And => set_reg(d, x & y, c),
        AluOp::Or => set_reg(d, x | y, c),
        AluOp::Xor => set_reg(d, x ^ y, c),
        AluOp::Sxb => set_reg(d, word::extend(8, y), c),
        AluOp::Xhw => set_reg(d, y % 65536 * 65536 + y / 65536, c),
        AluOp::Sxh => set_reg(d, word::extend(16, y), c),
        AluOp::Zxh => set_reg(d, y % 65536, c),
        AluOp::Lsl => set_at(shift_cost(y % 64), d, word::lsl(x, y % 64), c),
        AluOp::Lsr => set_at(shift_cost(y % 64), d, word::lsr(x, y % 64), c),
        AluOp::Asr => set_at(shift_cost(y % 64), d, word::asr(x, y % 64), c),
        AluOp::Mult => set_at(2, d, word::mult(x, y), c),
    }
}

pub fn shift_imm(op: ShiftOp, d: u32, n: u32, x: u32, c: Control) -> Effect
    ensures { result ≡ exec (Instr.ShiftImm op d n) x 0 0 c }
{
    match op {
        ShiftOp::Lsl => set_at(shift_cost(n), d, word::lsl(x, n), c),
        ShiftOp::Lsr => set_at(shift_cost(n), d, word::lsr(x, n), c),
        ShiftOp::Asr => set_at(shift_cost(n), d, word::asr(x, n), c),
        ShiftOp::Mult => set_at(2, d, word::mult(x, n), c),
    }
}

pub fn compare(op: CmpOp, x: u32, y: u32, c: Control) -> Effect
    ensures { result ≡ exec (Instr.Cmp op 0 0) x y 0 c }
{
    match op {
        CmpOp::Eq => set_tf(x == y, c),
        CmpOp::Hs => set_tf(y <= x, c),
        CmpOp::Ls => set_tf(x <= y, c),
        CmpOp::Lt => set_tf(word::is_less(x, y), c),
        CmpOp::Gt => set_tf(word::is_less(y, x), c),
    }
}

pub fn compare_imm(op: CmpImmOp, n: u32, x: u32, c: Control) -> Effect
    ensures { result ≡ exec (Instr.CmpImm op 0 n) x 0 0 c }
{
    match op {
        CmpImmOp::Eq => set_tf(x == n, c),
        CmpImmOp::Lt => set_tf(word::is_less(x, n), c),
        CmpImmOp::Gt => set_tf(word::is_less(n, x), c),
    }
}

// Whether TF says what the instruction wants is asked once, for the value and for its mark.
pub fn conditional(op: CondOp, wanted: bool, d: u32, x: u32, y: u32, c: Control) -> Effect
    ensures { result ≡ costing 1 (puts_reg d (if wanted then cond_of op x y else x) c) }
{
    match op {
        CondOp::Mov => set_if(wanted, d, y, x, c),
        CondOp::Sub => set_if(wanted, d, x.wrapping_sub(y), x, c),
        CondOp::Add => set_if(wanted, d, x.wrapping_add(y), x, c),
    }
}

pub fn conditional_imm(t: bool, d: u32, n: u32, x: u32, c: Control) -> Effect
    ensures { result ≡ exec (Instr.CondImm t d n) x 0 0 c }
{
    set_if(is_wanted(t, c), d, x.wrapping_add(n), x, c)
}

pub fn immediate(op: ImmOp, d: u32, n: u32, x: u32, c: Control) -> Effect
    ensures { result ≡ exec (Instr.Imm op d n) x 0 0 c }
{
    match op {
        ImmOp::And => set_reg(d, x & n, c),
        ImmOp::Add => set_reg(d, x.wrapping_add(n), c),
        ImmOp::Mov => set_reg(d, n, c),
    }
}

// ldr, ldrh, ldrb and ldrpc, with what they load.
pub fn loaded(d: u32, v: u32, c: Control) -> Effect
    ensures { result ≡ exec (Instr.Ldrpc d 0) 0 0 v c }
{
    set_at(2, d, v, c)
}

// str, strh and strb change no register.
pub fn stored(c: Control) -> Effect
    ensures { result ≡ exec (Instr.Store Width.Byte 0 0 0) 0 0 0 c }
{
    move_to(2, go_on(2, c))
}
