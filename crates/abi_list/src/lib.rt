// The static library's second part: the listing of an image. It is an archive of its own, since the decoder is laid into the machine's
// loop only where nothing else in the archive calls it. include/manik.h is its C header.
#![tactic(auto)]

ghost use Rattle.std.specs.Prelude.{◌≡◌};
ghost use Rattle.listing.specs.Lent.{number_of, length_of, listed_of};

// The listing of an image's range, from the buffer's first byte on: 0, or the refusal's number.
pub fn manik_list(
    image: &[u8],
    start: usize,
    end: usize,
    out: &mut [u8],
    written: &mut usize,
) -> u32
    ensures value { result ≡ number_of (listed_of image.now start end out.old).listed }
    ensures written_after { written.new ≡ length_of (listed_of image.now start end out.old).listed }
    ensures out_after { out.new ≡ (listed_of image.now start end out.old).out }
{
    let r = listing::list(image, start, end, out);
    *written = listing::length(r);
    listing::number(r)
}
