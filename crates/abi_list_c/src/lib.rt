// The export of the static library libabi_list.a. include/manik.h is its C header.
#![tactic(auto)]

ghost use Rattle.std.specs.Prelude.{◌≡◌};
ghost use Rattle.listing.specs.Lent.{number_of, length_of, listed_of};

#[unsafe(no_mangle)]
pub extern "C" fn manik_list(
    image: &[u8],
    start: usize,
    end: usize,
    out: &mut [u8],
    written: &mut usize,
) -> u32
    ensures value { result ≡ number_of (listed_of image.now start end out.old).listed }
    ensures written_after { written.new ≡ length_of (listed_of image.now start end out.old).listed }
    ensures out_after { out.new ≡ (listed_of image.now start end out.old).out }
{
    abi_list::manik_list(image, start, end, out, written)
}
