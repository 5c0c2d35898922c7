// The static library's third part: the assembler. It is an archive of its own, as the listing's is.
// include/manik.h is its C header.
#![tactic(auto)]

ghost use Rattle.std.specs.Prelude.{◌≡◌};
ghost use Rattle.asm.specs.Assemble.{reply_of, line_of, end_of, assembled_of};

// Assembles the text into the image from `start` on: 0, or the refusal's number.
pub fn manik_assemble(
    text: &[u8],
    start: usize,
    image: &mut [u8],
    line: &mut usize,
    end: &mut usize,
) -> u32
    ensures value { result ≡ reply_of (assembled_of text.now start image.old).assembled }
    ensures line_after { line.new ≡ line_of (assembled_of text.now start image.old).assembled }
    ensures end_after { end.new ≡ end_of (assembled_of text.now start image.old).assembled }
    ensures image_after { image.new ≡ (assembled_of text.now start image.old).image }
{
    let a = asm::assemble(text, start, image);
    *line = asm::line(a);
    *end = asm::end(a);
    asm::reply(a)
}
