// What a call answers: the three numbers that `manik_assemble` of include/manik.h gives to C, by `reply_of`, `line_of` and `end_of` of specs/Assemble.antt, 0 where
// there is none.
ghost use Rattle.std.specs.Prelude.{◌≡◌};
ghost use Rattle.asm.specs.Assemble.{number_of, reply_of, line_of, end_of};

use crate::{Assembled, Refusal};

// 0, or the refusal's number.
pub fn reply(a: Assembled) -> u32
    ensures { result ≡ reply_of a }
{
    match a {
        Ok(_) => 0,
        Err((r, _)) => number(r),
    }
}

pub fn line(a: Assembled) -> usize
    ensures { result ≡ line_of a }
{
    match a {
        Ok((lines, _)) => lines,
        Err((_, line)) => line,
    }
}

pub fn end(a: Assembled) -> usize
    ensures { result ≡ end_of a }
{
    match a {
        Ok((_, after)) => after,
        Err(_) => 0,
    }
}

// No From: `asm::number` is public, and a second name for `as u32` is no plainer.
pub fn number(r: Refusal) -> u32
    ensures { result ≡ number_of r }
{
    r as u32
}
