// The registers that an instruction reads, and the address of its data.
#![tactic(auto, unfolding(crate::specs::Exec::sources_of, crate::specs::Exec::data_address))]

ghost use Rattle.std.specs.Prelude.{◌≡◌};
ghost use Rattle.cpu.specs.Exec.{two, sources_of, data_address};

use crate::{Sources, UNREAD};
use isa::Instr;
use word::{ByteAddr, Width};

pub fn sources_of(i: Instr) -> Sources
    ensures { result ≡ sources_of i }
{
    match i {
        Instr::Alu(_, d, b)
        | Instr::Cmp(_, d, b)
        | Instr::Cond(_, _, d, b)
        | Instr::Store(_, d, _, b) => two_of(d, b),
        Instr::ShiftImm(_, d, _)
        | Instr::CmpImm(_, d, _)
        | Instr::CondImm(_, d, _)
        | Instr::Imm(_, d, _) => two_of(d, UNREAD),
        Instr::Load(_, _, _, b) | Instr::Mtsfr(_, b) | Instr::Jr(b) | Instr::Jrl(b) => two_of(
            UNREAD, b,
        ),
        Instr::Ldrpc(_, _)
        | Instr::Mfsfr(_, _)
        | Instr::Jsfr(_)
        | Instr::Swint(_)
        | Instr::ShortJump(_, _)
        | Instr::LongJump(_, _) => two_of(UNREAD, UNREAD),
    }
}

fn two_of(first: u32, second: u32) -> Sources
    ensures { result ≡ two first second }
{
    Sources { first, second }
}

pub fn data_address(w: Width, base: u32, n: u32) -> ByteAddr
    ensures { result ≡ data_address w base n }
{
    let offset = word::mult(n, word::bytes(w));
    word::align(w, word::byte_sum(ByteAddr(base), offset))
}
