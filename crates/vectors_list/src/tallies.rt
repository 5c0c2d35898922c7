// What is counted for each mnemonic, in the order in which they are met.
use std::fmt;

// A mnemonic's letters, and 0 after the last.
#[derive(Clone, Copy, PartialEq, Eq)]
pub struct Name([u8; 8]);

impl Name {
    fn of(field: &[u8]) -> Name {
        let mut name = [0; 8];
        for (to, letter) in name.iter_mut().zip(field) {
            *to = *letter;
        }
        Name(name)
    }
}

impl fmt::Display for Name {
    fn fmt<W: fmt::Write>(&self, f: &mut fmt::Formatter<W>) -> fmt::Result {
        for letter in self.0 {
            if letter != 0 {
                write!(f, "{}", char::from(letter))?;
            }
        }
        Ok(())
    }
}

// A mnemonic, how many lines had it, and their digest. A row with no lines is free.
#[derive(Clone, Copy)]
pub struct Tally {
    pub name: Name,
    pub lines: u64,
    pub digest: u64,
}

impl Tally {
    pub const FREE: Tally = Tally {
        name: Name([0; 8]),
        lines: 0,
        digest: 1,
    };
}

// The mnemonic is the third field. A sixty-first would be left out, and missed in the counts.
pub fn take(t: &mut [Tally; 60], line: &[u8]) {
    let name = Name::of(text::before(text::beyond(text::beyond(line))));
    for row in t.iter_mut() {
        if row.lines == 0 || row.name == name {
            row.name = name;
            row.lines = row.lines.wrapping_add(1);
            row.digest = digest::fold_bytes(row.digest, line);
            return;
        }
    }
}
