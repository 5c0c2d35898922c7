// Addresses and displacements.
ghost use Rattle.std.specs.Prelude.{◌≡◌};
ghost use Rattle.word.specs.Addresses.{jump_sum, byte_sum, aligned_of, is_odd};

use crate::{ByteAddr, HalfDisp, Width};

pub fn jump_sum(at: ByteAddr, d: HalfDisp) -> ByteAddr
    ensures { result ≡ jump_sum at d }
{
    let n = d.0;
    ByteAddr(at.0.wrapping_add(n.wrapping_add(n)))
}

pub fn byte_sum(at: ByteAddr, n: u32) -> ByteAddr
    ensures { result ≡ byte_sum at n }
{
    ByteAddr(at.0.wrapping_add(n))
}

pub fn align(w: Width, at: ByteAddr) -> ByteAddr
    ensures { result ≡ aligned_of w at }
{
    let a = at.0;
    match w {
        Width::Byte => ByteAddr(a / 1 * 1),
        Width::Half => ByteAddr(a / 2 * 2),
        Width::Word => ByteAddr(a / 4 * 4),
    }
}

pub fn is_odd(at: ByteAddr) -> bool
    ensures { result ≡ is_odd at }
{
    at.0 % 2 == 1
}
