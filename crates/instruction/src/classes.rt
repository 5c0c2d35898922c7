// What an instruction does or why it is not done, one function for each class, by its operands x and y and the marks f of TF and CY.
#![tactic(auto, unfolding(crate::specs::Act::act_of, crate::specs::Act::reach_of, cpu::specs::Exec::exec, cpu::specs::Exec::makes, cpu::specs::Cycles::cost_of, marks::specs::Marks::taint, marks::specs::Marks::blocked))]

ghost use Rattle.std.specs.Prelude.{◌≡◌, false, cond, ◌||◌, ℕ};
ghost use Rattle.word.specs.Bits.{on};
ghost use Rattle.word.specs.declared.Width.{Width};
ghost use Rattle.isa.specs.declared.Instr.{Instr};
ghost use Rattle.cpu.specs.Exec.{exec, data_address};
ghost use Rattle.marks.specs.Marks.{with, taint, alu_blocked, short_blocked, long_blocked};
ghost use Rattle.marks.specs.Memory.{bits};
ghost use Rattle.instruction.specs.Act.{act_of};
ghost use Rattle.instruction.specs.Parts.{flags, load_act, store_act};
ghost use Rattle.instruction.specs.declared.Halt.{Halt};
ghost use Rattle.instruction.specs.declared.Reach.{Reach};
ghost use Rattle.instruction.specs.declared.Act.{Act};

use crate::{Act, Halt, Reach, Val};
use cpu::{Control, Effect};
use isa::{AluOp, CmpOp, CondOp, Instr, LongOp, ShortOp};
use marks::{Flags, Taint};
use word::{ByteAddr, HalfDisp, Width};

fn stop_if(t: bool, a: Act) -> Act
    ensures { result ≡ cond t (Act.Halted Halt.MarkedOperand) a }
{
    if t {
        Act::Halted(Halt::MarkedOperand)
    } else {
        a
    }
}

fn does(e: Effect, t: Taint) -> Act
    ensures { result ≡ Act.Does e t Reach.Nowhere }
{
    Act::Does(e, t, Reach::Nowhere)
}

fn keep(f: Flags) -> Taint
    ensures { result ≡ with false f }
{
    marks::mark_reg(false, f)
}

// "operand marked, data outside": a marked base is told before its address.
fn halt_outside(marked: bool) -> Act
    ensures { result ≡ cond marked (Act.Halted Halt.MarkedOperand) (Act.Halted Halt.DataOutside) }
{
    stop_if(marked, Act::Halted(Halt::DataOutside))
}

fn load_on(w: Width, d: u32, n: u32, base: Val, f: Flags, c: Control, m: &[u8], mk: &[u8]) -> Act
    ensures { result ≡ cond base.mark (Act.Halted Halt.MarkedOperand) (load_act w (data_address w base.value n) d f c m.now (bits mk.now)) }
{
    let at = cpu::data_address(w, base.value, n);
    if word::is_inside(w, m, at) {
        let e = cpu::loaded(d, word::load(w, m, at), c);
        let t = marks::mark_reg(marks::memory::is_marked(w, mk, at), f);
        return stop_if(base.mark, Act::Does(e, t, Reach::Reads(w, at)));
    }
    halt_outside(base.mark)
}

// ldrpc's base, which is never marked.
fn pc_of(c: Control) -> Val
    ensures { result ≡ record { value = c.pc; mark = false } }
{
    Val {
        value: c.pc,
        mark: false,
    }
}

fn store_at(marked: bool, w: Width, at: ByteAddr, f: Flags, c: Control, m: &[u8]) -> Act
    ensures { result ≡ cond marked (Act.Halted Halt.MarkedOperand) (store_act w at f c m.now) }
{
    if word::is_inside(w, m, at) {
        return stop_if(
            marked,
            Act::Does(cpu::stored(c), keep(f), Reach::Writes(w, at)),
        );
    }
    halt_outside(marked)
}

fn alu_on(op: AluOp, d: u32, x: Val, y: Val, f: Flags, c: Control) -> Act
    ensures { result ≡ cond (alu_blocked op y.mark) (Act.Halted Halt.MarkedOperand) (Act.Does (exec (Instr.Alu op d 0) x.value y.value 0 c) (taint (Instr.Alu op 0 0) x.mark y.mark false false f) Reach.Nowhere) }
{
    let e = cpu::alu(op, d, x.value, y.value, c);
    stop_if(
        marks::is_alu_blocked(op, y.mark),
        does(e, marks::mark_alu(op, x.mark, y.mark, f)),
    )
}

fn short_on(op: ShortOp, d: HalfDisp, f: Flags, c: Control) -> Act
    ensures { result ≡ cond (short_blocked op f) (Act.Halted Halt.MarkedOperand) (Act.Does (exec (Instr.ShortJump op d) 0 0 0 c) (with false f) Reach.Nowhere) }
{
    let e = cpu::short_jump(op, d, c);
    stop_if(marks::is_short_blocked(op, f), does(e, keep(f)))
}

fn long_on(op: LongOp, d: HalfDisp, f: Flags, c: Control) -> Act
    ensures { result ≡ cond (long_blocked op f) (Act.Halted Halt.MarkedOperand) (Act.Does (exec (Instr.LongJump op d) 0 0 0 c) (with false f) Reach.Nowhere) }
{
    let e = cpu::long_jump(op, d, c);
    stop_if(marks::is_long_blocked(op, f), does(e, keep(f)))
}

fn compare_on(op: CmpOp, x: Val, y: Val, f: Flags, c: Control) -> Act
    ensures { result ≡ Act.Does (exec (Instr.Cmp op 0 0) x.value y.value 0 c) (with false (flags (x.mark || y.mark) f.cy)) Reach.Nowhere }
{
    let e = cpu::compare(op, x.value, y.value, c);
    does(e, marks::mark_tf(x.mark || y.mark, f))
}

fn conditional_on(op: CondOp, t: bool, d: u32, x: Val, y: Val, f: Flags, c: Control) -> Act
    ensures { result ≡ Act.Does (exec (Instr.Cond op t d 0) x.value y.value 0 c) (taint (Instr.Cond op t 0 0) x.mark y.mark false (on c.psw 8) f) Reach.Nowhere }
{
    let wanted = cpu::is_wanted(t, c);
    let e = cpu::conditional(op, wanted, d, x.value, y.value, c);
    does(e, marks::mark_conditional(op, wanted, x.mark, y.mark, f))
}

pub fn act_on(i: Instr, x: Val, y: Val, f: Flags, c: Control, m: &[u8], mk: &[u8]) -> Act
    ensures { result ≡ act_of i x y f c m.now (bits mk.now) }
{
    match i {
        Instr::Alu(op, d, _) => alu_on(op, d, x, y, f, c),
        Instr::ShiftImm(op, d, n) => does(
            cpu::shift_imm(op, d, n, x.value, c),
            marks::mark_reg(x.mark, f),
        ),
        Instr::Cmp(op, _, _) => compare_on(op, x, y, f, c),
        Instr::CmpImm(op, _, n) => does(
            cpu::compare_imm(op, n, x.value, c),
            marks::mark_tf(x.mark, f),
        ),
        Instr::Cond(op, t, d, _) => conditional_on(op, t, d, x, y, f, c),
        Instr::CondImm(t, d, n) => does(
            cpu::conditional_imm(t, d, n, x.value, c),
            marks::mark_reg(f.tf || x.mark, f),
        ),
        Instr::Ldrpc(d, n) => load_on(Width::Word, d, n, pc_of(c), f, c, m, mk),
        Instr::Imm(op, d, n) => does(
            cpu::immediate(op, d, n, x.value, c),
            marks::mark_imm(op, x.mark, f),
        ),
        Instr::Load(w, d, n, _) => load_on(w, d, n, y, f, c, m, mk),
        Instr::Store(w, _, n, _) => store_at(y.mark, w, cpu::data_address(w, y.value, n), f, c, m),
        Instr::Mfsfr(d, n) => does(
            cpu::mfsfr(d, n, c),
            marks::mark_reg(marks::is_sfr_marked(n, f), f),
        ),
        Instr::Mtsfr(n, _) => {
            // Tested first, unlike in stop_if: else the compiler carries all special function registers over the test.
            if y.mark {
                Act::Halted(Halt::MarkedOperand)
            } else {
                does(cpu::mtsfr(n, y.value, c), marks::mark_mtsfr(n, f))
            }
        }
        Instr::Jr(_) => stop_if(y.mark, does(cpu::jr(y.value, c), keep(f))),
        Instr::Jrl(_) => stop_if(y.mark, does(cpu::jrl(y.value, c), keep(f))),
        Instr::Jsfr(n) => stop_if(marks::is_sfr_marked(n, f), does(cpu::jsfr(n, c), keep(f))),
        Instr::Swint(n) => Act::Does(cpu::swint(n, c), keep(f), Reach::Raises(n)),
        Instr::ShortJump(op, d) => short_on(op, d, f, c),
        Instr::LongJump(op, d) => long_on(op, d, f, c),
    }
}
