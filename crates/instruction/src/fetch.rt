// The fetch of an instruction: its first half, and the rest by the kind that this half says.
#![tactic(auto, unfolding(crate::specs::Fetch::half_at, crate::specs::Parts::half_of, crate::specs::Parts::first_half, crate::specs::Parts::second_half, crate::specs::Parts::rest_by))]

ghost use Rattle.std.specs.Prelude.{◌≡◌, ℕ, ◌+◌, ◌/◌, ◌%◌};
ghost use Rattle.marks.specs.Memory.{bits};
ghost use Rattle.instruction.specs.Fetch.{half_at, fetch_of};
ghost use Rattle.instruction.specs.Parts.{half_of, first_half, is_long_kind, second_half, decoded_to, rest_by};

use crate::Halt;
use isa::{Decoded, Instr, Kind};
use word::{ByteAddr, Width};

#[tactic(auto, using(word::proofs::Memory::half_lt), unfolding(crate::specs::Fetch::half_at))]
fn half_at(m: &[u8], at: ByteAddr) -> u16
    ensures { result ≡ half_at m.now at }
{
    word::load(Width::Half, m, at) as u16
}

fn read_half(at: ByteAddr, m: &[u8], mk: &[u8]) -> Result<u16, Halt>
    ensures { result ≡ half_of at m.now (bits mk.now) }
{
    if !word::is_inside(Width::Half, m, at) {
        return Err(Halt::FetchOutside);
    }
    if marks::memory::is_marked(Width::Half, mk, at) {
        return Err(Halt::FetchMarked);
    }
    Ok(half_at(m, at))
}

// The first half, or why it cannot be read; `rest_at` goes on from it.
pub fn first_half(at: ByteAddr, m: &[u8], mk: &[u8]) -> Result<u16, Halt>
    ensures { result ≡ first_half at m.now (bits mk.now) }
{
    if word::is_odd(at) {
        return Err(Halt::NoInstruction);
    }
    read_half(at, m, mk)
}

fn is_long(d: Kind) -> bool
    ensures { result ≡ is_long_kind d }
{
    matches!(d, Kind::LongJump(_))
}

// The second half of a long jump, 0 for any other kind, as the definition `second_half` says. One place reads operands, so that the compiler lays it into the loop.
fn second_half(d: Kind, at: ByteAddr, m: &[u8], mk: &[u8]) -> Result<u16, Halt>
    ensures { result ≡ second_half d at m.now (bits mk.now) }
{
    if is_long(d) {
        read_half(at, m, mk)
    } else {
        Ok(0)
    }
}

fn decoded(d: Option<Decoded>) -> Result<Instr, Halt>
    ensures { result ≡ decoded_to d }
{
    match d {
        Some(Decoded::Short(i) | Decoded::Long(i)) => Ok(i),
        None => Err(Halt::NoInstruction),
    }
}

pub fn rest_at(d: Kind, first: u16, at: ByteAddr, m: &[u8], mk: &[u8]) -> Result<Instr, Halt>
    ensures { result ≡ rest_by d first at m.now (bits mk.now) }
{
    let second = second_half(d, word::byte_sum(at, 2), m, mk)?;
    decoded(isa::operands(d, first, second))
}

// The whole fetch.
#[tactic(auto, using(crate::proofs::Laws::fetch_by_parts))]
pub fn fetch(at: ByteAddr, m: &[u8], mk: &[u8]) -> Result<Instr, Halt>
    ensures { result ≡ fetch_of at m.now (bits mk.now) }
{
    let first = first_half(at, m, mk)?;
    rest_at(isa::kind_of((first / 256) as u8), first, at, m, mk)
}
