// What is written of an instruction's operands.
ghost use Rattle.std.specs.Prelude.{◌≡◌};
ghost use Rattle.text.specs.Pages.{page, write_on};
ghost use Rattle.word.specs.Bytes.{bytes_of};
ghost use Rattle.word.specs.Numbers.{product_of};
ghost use Rattle.listing.specs.Listing.{row_of, operand_text, row_text};
ghost use Rattle.listing.specs.declared.Operand.{Operand};
ghost use Rattle.listing.specs.declared.Row.{Row};

use crate::{Operand, Row};
use isa::Instr;
use word::{ByteAddr, Width};

#[tactic(auto, unfolding(crate::specs::Listing::row_of))]
pub fn row_of(at: ByteAddr, i: Instr) -> Row
    ensures { result ≡ row_of at i }
{
    match i {
        Instr::Alu(_, c, d) | Instr::Cmp(_, c, d) | Instr::Cond(_, _, c, d) => Row::Two(
            Operand::Reg(c),
            Operand::Reg(d),
        ),
        Instr::ShiftImm(_, c, x)
        | Instr::CmpImm(_, c, x)
        | Instr::CondImm(_, c, x)
        | Instr::Imm(_, c, x) => Row::Two(Operand::Reg(c), Operand::Number(x)),
        Instr::Ldrpc(c, n) => Row::Two(
            Operand::Reg(c),
            Operand::Number(cpu::data_address(Width::Word, at.0, n).0),
        ),
        Instr::Load(w, c, n, d) | Instr::Store(w, c, n, d) => Row::Three(
            Operand::Reg(c),
            Operand::Number(word::mult(n, word::bytes(w))),
            Operand::Reg(d),
        ),
        Instr::Mfsfr(c, s) => Row::Two(Operand::Reg(c), Operand::Sfr(s)),
        Instr::Mtsfr(s, d) => Row::Two(Operand::Sfr(s), Operand::Reg(d)),
        Instr::Jr(d) | Instr::Jrl(d) => Row::One(Operand::Reg(d)),
        Instr::Jsfr(s) => Row::One(Operand::Sfr(s)),
        Instr::Swint(n) => Row::One(Operand::Number(n)),
        Instr::ShortJump(_, d) | Instr::LongJump(_, d) => Row::One(Operand::Number(
            word::jump_sum(at, d).0,
        )),
    }
}

// The sixteen registers are most of what is written.
#[tactic(auto, using(crate::proofs::Laws::register_one, crate::proofs::Laws::register_two), unfolding(crate::specs::Listing::operand_text, text::specs::Pages::write_on))]
fn put_register(out: &mut [u8], at: usize, n: u32) -> usize
    ensures { page out.new result ≡ write_on (operand_text (Operand.Reg n)) (page out.old at) }
{
    if n < 10 {
        return text::put_all(out, at, &[b'\t', b'r', 48 + n as u8]);
    }
    if n < 20 {
        return text::put_all(out, at, &[b'\t', b'r', b'1', 38 + n as u8]);
    }
    let a = text::put_all(out, at, b"\tr");
    text::put_number(out, a, n as u64)
}

#[tactic(auto, unfolding(crate::specs::Listing::operand_text, text::specs::Pages::write_on))]
fn put_operand(out: &mut [u8], at: usize, x: Operand) -> usize
    ensures { page out.new result ≡ write_on (operand_text x) (page out.old at) }
{
    match x {
        Operand::Reg(n) => put_register(out, at, n),
        Operand::Sfr(n) => {
            let a = text::put_all(out, at, b"\tsfr");
            text::put_number(out, a, n as u64)
        }
        Operand::Number(n) => {
            let a = text::put(out, at, b'\t');
            text::put_signed(out, a, n)
        }
        Operand::Bits(h) => {
            let a = text::put_all(out, at, b"\t0x");
            text::put_half(out, a, h)
        }
    }
}

#[tactic(auto, using(text::proofs::Pages::write_append, text::proofs::Pages::write_three), unfolding(crate::specs::Listing::row_text))]
pub fn put_row(out: &mut [u8], at: usize, r: Row) -> usize
    ensures { page out.new result ≡ write_on (row_text r) (page out.old at) }
{
    match r {
        Row::One(x) => put_operand(out, at, x),
        Row::Two(x, y) => {
            let a = put_operand(out, at, x);
            put_operand(out, a, y)
        }
        Row::Three(x, y, z) => {
            let a = put_operand(out, at, x);
            let b = put_operand(out, a, y);
            put_operand(out, b, z)
        }
    }
}
