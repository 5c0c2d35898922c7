// The listing of a range, in a lent buffer.
ghost use Rattle.std.specs.Prelude.{◌≡◌, ◌≤◌, true, cond, ltb, length};
ghost use Rattle.listing.specs.Listing.{listing_of};
ghost use Rattle.listing.specs.Lent.{is_out_of, number_of, length_of, answered, listed_of};
ghost use Rattle.listing.specs.Parts.{Good, Kept};

use crate::Refusal;
use crate::lines::{entry_at, put_entry, size};
use crate::names::Tables;
use word::ByteAddr;

pub fn number(r: Result<usize, Refusal>) -> u32
    ensures { result ≡ number_of r }
{
    match r {
        Ok(_) => 0,
        Err(e) => e as u32,
    }
}

pub fn length(r: Result<usize, Refusal>) -> usize
    ensures { result ≡ length_of r }
{
    r.unwrap_or(0)
}

fn is_out_of(length: usize, start: usize, end: usize) -> bool
    ensures { result ≡ is_out_of length start end }
{
    65536 < length || start % 2 == 1 || end % 2 == 1 || end < start || length < end
}

// The lines of a range and their length. Kept lines stand one after the other, others each over the one before it: two functions in place of `keep` would be
// twins, the same walk with its sum and its invariant twice.
// How far the next line is, is known only once its instruction is read, so no range goes over the places.
fn put_lines(out: &mut [u8], image: &[u8], start: u32, end: usize, keep: bool) -> usize
    requires { (start ≤ end) × (end ≤ 65536) × (cond keep (length (listing_of image.now start end)) 48 ≤ length out.old) }
    ensures value { result ≡ length (listing_of image.now start end) }
    ensures kept { keep ≡ true → Kept out.new (listing_of image.now start end) out.old }
{
    let tables = Tables::new();
    let mut total: usize = 0;
    let mut to: usize = 0;
    let mut at = start;
    while (at as usize) < end {
        let x = entry_at(image, ByteAddr(at), end);
        let after = put_entry(out, to, &tables, x);
        total += after - to;
        to = if keep { after } else { 0 };
        at += size(x.shown.long);
    }
    total
}

// A buffer of 24 bytes for each byte of the range has room for every listing. Where it is shorter, the length is found first.
#[tactic(auto, using(crate::proofs::Lent::roomy))]
fn is_short(room: usize, image: &[u8], start: usize, end: usize) -> bool
    requires { Good (length image.now) start end }
    ensures { result ≡ ltb room (length (listing_of image.now start end)) }
{
    if (end - start) * 24 <= room {
        return false;
    }
    let mut line = [0u8; 48];
    room < put_lines(&mut line, image, start as u32, end, false)
}

#[tactic(auto, using(crate::proofs::Lent::lent_out, crate::proofs::Lent::lent_short, crate::proofs::Lent::lent_done), unfolding(crate::specs::Lent::listed_of))]
pub fn list(image: &[u8], start: usize, end: usize, out: &mut [u8]) -> Result<usize, Refusal>
    ensures { answered result out.new ≡ listed_of image.now start end out.old }
{
    if is_out_of(image.len(), start, end) {
        return Err(Refusal::OutOfImage);
    }
    if is_short(out.len(), image, start, end) {
        return Err(Refusal::NoRoom);
    }
    Ok(put_lines(out, image, start as u32, end, true))
}
