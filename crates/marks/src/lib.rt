// Marks: which operands stop an instruction, which results become marked, and the marks of memory.
#![tactic(auto)]

pub mod memory;

ghost use Rattle.std.specs.Prelude.{◌≡◌, false, cond, ◌||◌};
ghost use Rattle.isa.specs.declared.Instr.{Instr};
ghost use Rattle.marks.specs.Marks.{alu_mark, alu_flags, cond_mark, imm_mark, sfr_mark, with, taint, alu_blocked, short_blocked, long_blocked};

use isa::{AluOp, CondOp, ImmOp, LongOp, ShortOp};

// The marks of TF and CY.
#[derive(Clone, Copy)]
pub struct Flags {
    pub tf: bool,
    pub cy: bool,
}

// The mark of the register that an instruction writes, and the flags' marks after it.
#[derive(Clone, Copy)]
pub struct Taint {
    pub reg: bool,
    pub flags: Flags,
}

// ---- registers, TF and CY

// A register's mark alone.
pub fn mark_reg(m: bool, f: Flags) -> Taint
    ensures { result ≡ with m f }
{
    Taint { reg: m, flags: f }
}

// A register's mark, and CY's likewise.
fn mark_sum(m: bool, f: Flags) -> Taint
    ensures { result ≡ with m (record { tf = f.tf; cy = m }) }
{
    Taint {
        reg: m,
        flags: Flags { cy: m, ..f },
    }
}

// Two sources.
fn mark_two(mx: bool, my: bool, f: Flags) -> Taint
    ensures { result ≡ with (mx || my) f }
{
    mark_reg(mx || my, f)
}

#[tactic(auto, unfolding(crate::specs::Marks::taint, crate::specs::Marks::alu_mark, crate::specs::Marks::alu_flags))]
pub fn mark_alu(op: AluOp, mx: bool, my: bool, f: Flags) -> Taint
    ensures { result ≡ taint (Instr.Alu op 0 0) mx my false false f }
{
    match op {
        AluOp::Sub | AluOp::Add => mark_sum(mx || my, f),
        AluOp::Subc | AluOp::Addc => mark_sum(mx || my || f.cy, f),
        AluOp::Mov | AluOp::Sxb | AluOp::Xhw | AluOp::Sxh | AluOp::Zxh => mark_reg(my, f),
        AluOp::And | AluOp::Or | AluOp::Xor | AluOp::Mult => mark_two(mx, my, f),
        AluOp::Lsl | AluOp::Lsr | AluOp::Asr => mark_two(mx, my, f),
    }
}

// A compare marks TF.
pub fn mark_tf(m: bool, f: Flags) -> Taint
    ensures { result ≡ with false (record { tf = m; cy = f.cy }) }
{
    Taint {
        reg: false,
        flags: Flags { tf: m, ..f },
    }
}

#[tactic(auto, unfolding(crate::specs::Marks::cond_mark))]
fn cond_sources(op: CondOp, mx: bool, my: bool) -> bool
    ensures { result ≡ cond_mark op mx my }
{
    match op {
        CondOp::Mov => my,
        CondOp::Sub | CondOp::Add => mx || my,
    }
}

// wanted: TF says what the instruction wants.
pub fn mark_conditional(op: CondOp, wanted: bool, mx: bool, my: bool, f: Flags) -> Taint
    ensures { result ≡ with (f.tf || cond wanted (cond_mark op mx my) mx) f }
{
    let sources = cond_sources(op, mx, my);
    if wanted {
        return mark_reg(f.tf || sources, f);
    }
    mark_reg(f.tf || mx, f)
}

#[tactic(auto, unfolding(crate::specs::Marks::taint, crate::specs::Marks::imm_mark))]
pub fn mark_imm(op: ImmOp, mx: bool, f: Flags) -> Taint
    ensures { result ≡ taint (Instr.Imm op 0 0) mx false false false f }
{
    match op {
        ImmOp::And | ImmOp::Add => mark_reg(mx, f),
        ImmOp::Mov => mark_reg(false, f),
    }
}

#[tactic(auto, unfolding(crate::specs::Marks::sfr_mark))]
pub fn is_sfr_marked(n: u32, f: Flags) -> bool
    ensures { result ≡ sfr_mark n f }
{
    n == 0 && (f.tf || f.cy)
}

#[tactic(auto, unfolding(crate::specs::Marks::taint))]
pub fn mark_mtsfr(n: u32, f: Flags) -> Taint
    ensures { result ≡ taint (Instr.Mtsfr n 0) false false false false f }
{
    if n == 0 {
        return mark_reg(
            false,
            Flags {
                tf: false,
                cy: false,
            },
        );
    }
    mark_reg(false, f)
}

// ---- stop 14

// A shift by register shows its amount in the time that it takes.
#[tactic(auto, unfolding(crate::specs::Marks::alu_blocked))]
pub fn is_alu_blocked(op: AluOp, my: bool) -> bool
    ensures { result ≡ alu_blocked op my }
{
    matches!(op, AluOp::Lsl | AluOp::Lsr | AluOp::Asr) && my
}

#[tactic(auto, unfolding(crate::specs::Marks::short_blocked))]
pub fn is_short_blocked(op: ShortOp, f: Flags) -> bool
    ensures { result ≡ short_blocked op f }
{
    matches!(op, ShortOp::Sjf | ShortOp::Sjt) && f.tf
}

#[tactic(auto, unfolding(crate::specs::Marks::long_blocked))]
pub fn is_long_blocked(op: LongOp, f: Flags) -> bool
    ensures { result ≡ long_blocked op f }
{
    matches!(op, LongOp::Jf | LongOp::Jt) && f.tf
}
