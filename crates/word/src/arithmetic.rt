// Arithmetic of 32-bit words: sums, shifts, signed numbers.
ghost use Rattle.std.specs.Prelude.{◌≡◌};
ghost use Rattle.word.specs.Numbers.{sum_of, carry_of, difference_of, borrow_of, product_of, lsl_of, lsr_of, asr_of, less_of, extend_of, fits_of};

use crate::Sum;
use crate::bits::{is_on, power};

pub fn add(x: u32, y: u32, c: bool) -> Sum
    ensures { result ≡ record { value = sum_of x y c; carry = carry_of x y c } }
{
    let n = u32::from(c);
    let value = x.wrapping_add(y).wrapping_add(n);
    let total = x as u64 + y as u64 + n as u64;
    Sum {
        value,
        carry: 4294967296 <= total,
    }
}

pub fn sub(x: u32, y: u32, c: bool) -> Sum
    ensures { result ≡ record { value = difference_of x y c; carry = borrow_of x y c } }
{
    let n = u32::from(c);
    let value = x.wrapping_sub(y).wrapping_sub(n);
    let taken = y as u64 + n as u64;
    Sum {
        value,
        carry: (x as u64) < taken,
    }
}

pub fn mult(x: u32, y: u32) -> u32
    ensures { result ≡ product_of x y }
{
    x.wrapping_mul(y)
}

pub fn lsl(x: u32, n: u32) -> u32
    ensures { result ≡ lsl_of x n }
{
    if 31 < n { 0 } else { x << n }
}

pub fn lsr(x: u32, n: u32) -> u32
    ensures { result ≡ lsr_of x n }
{
    if 31 < n { 0 } else { x >> n }
}

pub fn asr(x: u32, n: u32) -> u32
    ensures { result ≡ asr_of x n }
{
    let negative = is_on(x, 31);
    if 31 < n {
        if negative { u32::MAX } else { 0 }
    } else if negative {
        (x >> n) + (u32::MAX - (u32::MAX >> n))
    } else {
        x >> n
    }
}

pub fn is_less(x: u32, y: u32) -> bool
    ensures { result ≡ less_of x y }
{
    x.cast_signed() < y.cast_signed()
}

pub fn extend(w: u32, n: u32) -> u32
    ensures { result ≡ extend_of w n }
{
    if w == 0 {
        return 0;
    }
    if 31 < w {
        return n;
    }
    let k = power(w - 1);
    let low = n as u64 % power(w);
    if low < k {
        return low as u32;
    }
    (low + 4294967296 - power(w)) as u32
}

pub fn fits(w: u32, x: u32) -> bool
    ensures { result ≡ fits_of w x }
{
    extend(w, x) == x
}
