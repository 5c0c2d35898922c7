// The digest that programs of the gate write of numbers and of bytes: docs/VECTORS.md, docs/CORPUS.md.
#![tactic(auto)]

ghost use Rattle.std.specs.Prelude.{◌≡◌};
ghost use Rattle.digest.specs.Digest.{folded, digest_of};

#[tactic(auto, using(crate::proofs::Laws::cut_first))]
pub fn fold(d: u64, x: u32) -> u64
    ensures { result ≡ folded d x }
{
    // Cut first, so that the product is a number of this type.
    (d % 4294967291 * 1000003 + x as u64) % 4294967291
}

#[tactic(auto, using(crate::proofs::Laws::digest_folds))]
pub fn fold_bytes(d: u64, m: &[u8]) -> u64
    ensures { result ≡ digest_of d m.now }
{
    m.iter().fold(d, |e, x| fold(e, u32::from(*x)))
}
