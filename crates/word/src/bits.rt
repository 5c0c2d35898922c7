// Bits and fields of a word.
ghost use Rattle.std.specs.Prelude.{◌≡◌, ◌^◌, ◌≤◌};
ghost use Rattle.word.specs.Bits.{num, field_of, on, with_field, with_bit};

pub fn number(b: bool) -> u32
    ensures { (result ≡ num b) × (result ≤ 1) }
{
    u32::from(b)
}

pub fn power(i: u32) -> u64
    requires { i ≤ 32 }
    ensures { result ≡ 2 ^ i }
{
    1u64 << i
}

#[tactic(auto, using(crate::proofs::Numbers::field_past, crate::proofs::Numbers::field_rest))]
pub fn field(p: u32, i: u32, w: u32) -> u32
    ensures { result ≡ field_of p i w }
{
    if 31 < i {
        return 0;
    }
    let from = p >> i;
    if 31 < w {
        return from;
    }
    (from as u64 % power(w)) as u32
}

pub fn is_on(p: u32, i: u32) -> bool
    ensures { result ≡ on p i }
{
    field(p, i, 1) == 1
}

#[tactic(auto, using(crate::proofs::Fields::top_fits, crate::proofs::Fields::whole_fits), unfolding(crate::specs::Bits::put))]
pub fn with_field(p: u32, i: u32, w: u32, v: u32) -> u32
    ensures { result ≡ with_field p i w v }
{
    if 32 < w || 32 - w < i {
        return p;
    }
    let size = power(w);
    let unit = power(i);
    let above = p as u64 / power(i + w);
    ((above * size + v as u64 % size) * unit + p as u64 % unit) as u32
}

pub fn with_bit(p: u32, i: u32, b: bool) -> u32
    ensures { result ≡ with_bit p i b }
{
    with_field(p, i, 1, number(b))
}
