// The mnemonics, in the places of the opcode map.
ghost use Rattle.std.specs.Prelude.{◌≡◌, ◌/◌};
ghost use Rattle.text.specs.Digits.{glyphs};
ghost use Rattle.text.specs.Pages.{page, write_on};
ghost use Rattle.listing.specs.Names.{names, place_of, name_at};

// Six letters for each place, and no &str for each: the definitions names and name_at say the letters so, and so does mnemonics of forms, by them.
const NAMES: [u8; 492] =
    *b"                                                                        lsli  lsri  asri  multi swint       mfsfr mtsfr                                                 jr    jrl   jsfr        sub   add   subc  addc  mov   and   or    xor   sxb   xhw   sxh   zxh   lsl   lsr   asr   mult  cmpeqicmpeq cmphs cmpls cmplt cmpgt cmplticmpgtimovf  subf  addif addf  movt  subt  addit addt  ldrpc andi  addi  movi  ldr   str   ldrh  strh  ldrb  strb  jf    sjf   jt    sjt   j     sj    jl    half  ";

// `half` stands in the table's last place, which no instruction has.
pub const HALF_PLACE: u32 = 81;

// The place of a first half.
#[tactic(auto, unfolding(crate::specs::Names::place_of))]
pub fn place_of(first: u16) -> u32
    ensures { result ≡ place_of (first / 256) }
{
    let [byte, _] = first.to_be_bytes();
    let n = u32::from(byte);
    match n {
        0..64 => n,
        64..224 => 60 + n / 16,
        _ => 18 + n / 4,
    }
}

// What lines are written by: the hex digits and the names. They are lent, since the compiler builds a table anew wherever it is named.
#[derive(Drop)]
pub struct Tables {
    pub digits: [u8; 16],
    pub letters: [u8; 492],
    ghost all_digits: { digits ≡ glyphs },
    ghost all_names: { letters ≡ names },
}

impl Tables {
    pub fn new() -> Self {
        Tables {
            digits: text::glyph_table(),
            letters: NAMES,
        }
    }
}

pub fn put_name(out: &mut [u8], from: usize, tables: &Tables, place: u32) -> usize
    ensures { page out.new result ≡ write_on (name_at place) (page out.old from) }
{
    let mut at = from;
    for letter in text::start_part(text::end_part(&tables.letters, place as usize * 6), 6) {
        if *letter == b' ' {
            return at;
        }
        at = text::put(out, at, *letter);
    }
    at
}
