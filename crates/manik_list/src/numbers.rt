// A number of the command line.
ghost use Rattle.std.specs.Prelude.{◌≡◌, ◌≤◌};
ghost use Rattle.manik_list.specs.Numbers.{lower_of, digit_of, word_of, number_of};

// Not to_ascii_lowercase: the definition lower_of leaves G to Z as they are.
fn lower(c: u8) -> u8
    ensures { result ≡ lower_of c }
{
    match c {
        b'A'..=b'F' => c + 32,
        _ => c,
    }
}

// A byte as a digit of hex: 16 where it is none.
fn digit(c: u8) -> u32
    ensures { (result ≡ digit_of c) × (result ≤ 16) }
{
    text::value(lower(c))
}

// What does not fit 32 bits is no number, however many digits follow. Rust's from_str_radix would take a sign too,
// and text's `number` promises `digits_read`, of at most 8 bytes, where the definition word_of takes any number of them.
#[tactic(auto, using(crate::proofs::Laws::number_on, crate::proofs::Laws::number_stop, crate::proofs::Laws::number_none, crate::proofs::Laws::word_none, crate::proofs::Laws::word_first))]
fn digits(base: u32, word: &[u8]) -> Option<u32>
    requires { (1 ≤ base) × (base ≤ 16) }
    ensures { result ≡ word_of base word.now }
{
    if word.is_empty() {
        return None;
    }
    let mut v: u32 = 0;
    for c in word {
        let d = digit(*c);
        if base <= d {
            return None;
        }
        let shifted = v.checked_mul(base)?;
        v = shifted.checked_add(d)?;
    }
    Some(v)
}

#[tactic(auto, using(crate::proofs::Laws::hex_same))]
pub fn number(word: &[u8]) -> Option<u32>
    ensures { result ≡ number_of word.now }
{
    match word.strip_prefix(b"0x") {
        Some(rest) => digits(16, rest),
        None => digits(10, word),
    }
}
