// The passes over a text: labels, refusals, bytes.
ghost use Rattle.std.specs.Prelude.{◌≡◌, ◌≤◌, true, [], length};
ghost use Rattle.text.specs.Pages.{page, write_on};
ghost use Rattle.expr.specs.Expr.{labels_in};
ghost use Rattle.forms.specs.Form.{lines_of};
ghost use Rattle.forms.specs.Parts.{first_line, slots};
ghost use Rattle.asm.specs.Parts.{assembled_with, all_known};
ghost use Rattle.forms.specs.Says.{bytes_in};
ghost use Rattle.asm.specs.Assemble.{address_of, label_for, bytes_for, labels_of, verdict_of, code_of, is_outside, answered, assembled_of};

use crate::labels::Table;
use crate::lines::{Line, room_check};
use crate::{Assembled, Collected, Refusal};
use expr::Entry;
use forms::{What, shape_of, table};
use isa::Encoded;
use word::ByteAddr;

// The remainder stands: a cast must lose nothing, and `address_of` of specs/Assemble.antt is modulo 2^32.
fn address_of(at: usize) -> ByteAddr
    ensures { result ≡ address_of at }
{
    ByteAddr((at % 4294967296) as u32)
}

// A flag and 0: `label_for` and `bytes_for` of specs/Assemble.antt say both for a line of unknown form, which sets no label and takes no bytes.
fn label_for(known: bool, line: &Line) -> u64
    ensures { result ≡ label_for known (first_line line.now.text.now) }
{
    if known { line.label() } else { 0 }
}

fn bytes_for(known: bool, w: What) -> u32
    ensures { result ≡ bytes_for known w }
{
    if known { shape_of(w).size } else { 0 }
}

// A text that is assembled from an address on, and the table of mnemonics.
//
// Its passes go by place and not over `split`: where a line ends is found while its fields are.
#[derive(Clone, Copy)]
struct Source<'a> {
    text: &'a [u8],
    table: &'a [u64; 312],
    start: usize,
    ghost is_table: { table.now ≡ slots },
}

fn put_bits(image: &mut [u8], to: usize, e: Option<Encoded>) -> usize
    ensures { page image.new result ≡ write_on (bytes_in e) (page image.old to) }
{
    let Some(bits) = e else {
        return to;
    };
    match bits {
        Encoded::Half(h) => {
            let bytes = h.to_be_bytes();
            text::put_all(image, to, &bytes)
        }
        Encoded::Pair(h, s) => {
            let [a, b] = h.to_be_bytes();
            let [c, d] = s.to_be_bytes();
            text::put_all(image, to, &[a, b, c, d])
        }
    }
}

fn is_outside(start: usize, end: usize) -> bool
    ensures { result ≡ is_outside start end }
{
    start % 2 == 1 || end < start
}

impl Source<'_> {
    // The labels of the text, behind those that the table has.
    fn collect(&self, labels: &mut Table) -> Collected
        ensures labels_after { labels.new ≡ labels_of labels.old (address_of self.now.start) (lines_of self.now.text.now) }
        ensures count_value { result.count ≡ length labels.new.keys }
        ensures known_value { result.known ≡ all_known (lines_of self.now.text.now) }
    {
        let mut known = true;
        let mut a = address_of(self.start);
        let mut at: usize = 0;
        while at < self.text.len() {
            let line = Line::new(text::end_part(self.text, at));
            let w = line.what(self.table);
            let is_known = line.is_known_as(w);
            known &= is_known;
            labels.add(label_for(is_known, &line), a);
            a = word::byte_sum(a, bytes_for(is_known, w));
            at += line.cut.end + 1;
        }
        let count = labels.labels().len();
        Collected { count, known }
    }

    // Every line, the first refused one first.
    fn judge(&self, sure: bool, end: usize, labels: &[Entry]) -> Assembled
        requires { (self.now.start ≤ end) × (sure ≡ true → all_known (lines_of self.now.text.now) ≡ true) }
        ensures { result ≡ verdict_of (labels_in labels.now) [] self.now.start end 0 (lines_of self.now.text.now) }
    {
        let mut seen = Table::new();
        let mut to = self.start;
        let mut lines: usize = 0;
        let mut at: usize = 0;
        while at < self.text.len() {
            let line = Line::new(text::end_part(self.text, at));
            let w = line.what(self.table);
            let n = shape_of(w).size;
            let room = room_check(to, n, end);
            let a = address_of(to);
            lines += 1;
            if let Err(r) = line.check(sure, w, labels, &seen, a, room) {
                return Err((r, lines));
            }
            seen.add(line.label(), a);
            to += n as usize;
            at += line.cut.end + 1;
        }
        Ok((lines, to))
    }

    // The bytes of all lines, none of which is refused.
    fn put_code(&self, labels: &[Entry], image: &mut [u8]) -> usize
        ensures { page image.new result ≡ write_on (code_of (labels_in labels.now) (address_of self.now.start) (lines_of self.now.text.now)) (page image.old self.now.start) }
    {
        let mut to = self.start;
        let mut a = address_of(self.start);
        let mut at: usize = 0;
        while at < self.text.len() {
            let line = Line::new(text::end_part(self.text, at));
            let w = line.what(self.table);
            to = put_bits(image, to, line.encoded(w, labels, a));
            a = word::byte_sum(a, shape_of(w).size);
            at += line.cut.end + 1;
        }
        to
    }

    // Only a text that is not refused is written.
    fn assemble_with(&self, sure: bool, labels: &[Entry], image: &mut [u8]) -> Assembled
        requires { (self.now.start ≤ length image.old) × (sure ≡ true → all_known (lines_of self.now.text.now) ≡ true) }
        ensures { answered result image.new ≡ assembled_with (labels_in labels.now) (lines_of self.now.text.now) self.now.start image.old }
    {
        let (lines, after) = self.judge(sure, image.len(), labels)?;
        self.put_code(labels, image);
        Ok((lines, after))
    }
}

pub fn assemble(text: &[u8], start: usize, image: &mut [u8]) -> Assembled
    ensures { answered result image.new ≡ assembled_of text.now start image.old }
{
    if is_outside(start, image.len()) {
        // Line 0, since `verdict_in` of specs/Assemble.antt says it: no line is at fault.
        return Err((Refusal::Start, 0));
    }
    let table = table();
    let source = Source {
        text,
        table: &table,
        start,
    };
    let mut labels = Table::new();
    let found = source.collect(&mut labels);
    source.assemble_with(found.known, labels.labels(), image)
}
