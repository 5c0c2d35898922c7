// The listing, written in parts of whole lines. No contract of std says which bytes reach the system. `fill` is proved to make the listing's next
// part, so all parts, one after the other, are the listing.
ghost use Rattle.std.specs.Prelude.{◌≡◌, ◌++◌, ◌≤◌, ◌<◌, length, take};
ghost use Rattle.listing.specs.Listing.{listing_of};

use crate::ranges::Range;
use std::io;
use word::ByteAddr;

// So many bytes, and the address after their last line.
#[derive(Clone, Copy)]
struct Part {
    bytes: usize,
    next: u32,
}

// As many lines as there is room for: none is longer than 48 bytes. How far the next line is, is known only once its instruction is read, so no range
// goes over the places.
fn fill(out: &mut [u8], image: &[u8], start: u32, end: usize) -> Part
    requires { (start < end) × (end ≤ 65536) × (48 ≤ length out.old) }
    ensures end_value { listing_of image.now start end ≡ take result.bytes out.new ++ listing_of image.now result.next end }
    ensures start_lt_next { (start < result.next) × (result.next ≤ 65540) }
{
    let last = out.len() - 48;
    let mut at = start;
    let mut n: usize = 0;
    while n <= last && (at as usize) < end {
        let line = listing::line_at(image, ByteAddr(at), end);
        n = text::put_all(out, n, text::start_part(&line.text, line.length));
        at = line.next.0;
    }
    Part { bytes: n, next: at }
}

pub fn write_listing(to: &impl Print, image: &[u8], range: Range) -> io::Result<()>
    requires { (range.start ≤ range.end) × (range.end ≤ 65536) }
{
    let mut out = [0u8; 4096];
    let mut at = range.start as u32;
    while (at as usize) < range.end {
        let part = fill(&mut out, image, at, range.end);
        to.write_all(text::start_part(&out, part.bytes))?;
        at = part.next;
    }
    Ok(())
}
