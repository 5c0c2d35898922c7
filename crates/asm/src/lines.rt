// A line of known form: its value, its bits, and what is wrong with it first.
ghost use Rattle.std.specs.Prelude.{◌≡◌, ◌-◌, ◌≤◌, eqb, length, get_or, take, drop};
ghost use Rattle.expr.specs.Expr.{labels_in};
ghost use Rattle.forms.specs.Form.{body_of, field_at, tabs_in, what_in, is_known_as};
ghost use Rattle.forms.specs.Parts.{first_line, cut_of, slots};
ghost use Rattle.forms.specs.Says.{bytes_in};
ghost use Rattle.asm.specs.Parts.{takes_sum, check_sure};
ghost use Rattle.asm.specs.Assemble.{label_in, line_value, line_bits, value_check, room_check, value_in, line_bytes};

use crate::Refusal;
use crate::labels::Table;
use expr::{Entry, Read, Value};
use forms::{
    Cut, Shape, Sort, What, bits_at, bits_of, cut_line, is_known, number_at, shape_of, tabs_in,
    what_of,
};
use isa::Encoded;
use word::ByteAddr;

fn is_newline(s: &[u8], at: usize) -> bool
    ensures { result ≡ eqb (get_or s.now at 0) 10 }
{
    s.get(at) == Some(&b'\n')
}

fn takes_sum(s: Sort) -> bool
    ensures { result ≡ takes_sum s }
{
    matches!(s, Sort::Sum)
}

// No Option: `value_in` of specs/Assemble.antt is 0 for what has no value, and a value is asked for only where no line is refused.
fn value_in(r: Read) -> i32
    ensures { result ≡ value_in r }
{
    let Ok((v, _)) = r else {
        return 0;
    };
    match v {
        Value::Is(z) => z,
        Value::Large => 0,
        Value::Unknown => 0,
    }
}

// Whether n bytes from `at` on lie in an image of `end` bytes.
pub fn room_check(at: usize, n: u32, end: usize) -> Result<(), Refusal>
    requires { at ≤ end }
    ensures { result ≡ room_check at n end }
{
    if end - at < n as usize {
        return Err(Refusal::Room);
    }
    Ok(())
}

// The first line of a text, and where its fields stand.
#[derive(Clone, Copy)]
pub struct Line<'a> {
    pub text: &'a [u8],
    pub cut: Cut,
    ghost is_cut: { cut ≡ cut_of text.now },
}

impl<'a> Line<'a> {
    pub fn new(text: &'a [u8]) -> Self
        ensures { result.text.now ≡ text.now }
    {
        Line {
            text,
            cut: cut_line(text),
        }
    }

    fn part(&self, from: usize, to: usize) -> &'a [u8]
        requires { (from ≤ to) × (to ≤ length self.now.text.now) }
        ensures { result.now ≡ take (to - from) (drop from self.now.text.now) }
    {
        &self.text[from..to]
    }

    fn first(&self) -> &'a [u8]
        ensures { result.now ≡ field_at 2 (body_of (first_line self.now.text.now)) }
    {
        self.part(self.cut.from2, self.cut.to2)
    }

    fn second(&self) -> &'a [u8]
        ensures { result.now ≡ field_at 3 (body_of (first_line self.now.text.now)) }
    {
        self.part(self.cut.from3, self.cut.to3)
    }

    fn third(&self) -> &'a [u8]
        ensures { result.now ≡ field_at 4 (body_of (first_line self.now.text.now)) }
    {
        self.part(self.cut.from4, self.cut.to4)
    }

    // What the line names.
    pub fn what(&self, table: &[u64; 312]) -> What
        requires { table.now ≡ slots }
        ensures { result ≡ what_in (first_line self.now.text.now) }
    {
        what_of(self.part(self.cut.from1, self.cut.to1), table)
    }

    // The number of the line's own label. No Option: `label_in` of specs/Assemble.antt is 0 where a line has none, and so `is_new` and `label_check` ask for that 0.
    pub fn label(&self) -> u64
        ensures { result ≡ label_in (first_line self.now.text.now) }
    {
        expr::label(self.part(0, self.cut.to0))
    }

    fn tabs(&self) -> usize
        ensures { result ≡ tabs_in (body_of (first_line self.now.text.now)) }
    {
        let c = self.cut;
        let more = tabs_in(self.part(c.from4, c.end));
        c.from1 - c.to0 + (c.from2 - c.to1) + (c.from3 - c.to2) + (c.from4 - c.to3) + more
    }

    pub fn is_known_as(&self, w: What) -> bool
        ensures { result ≡ is_known_as w (first_line self.now.text.now) }
    {
        if is_newline(self.text, self.cut.end) {
            let label = self.part(0, self.cut.to0);
            return is_known(
                shape_of(w),
                self.tabs(),
                label,
                self.first(),
                self.second(),
                self.third(),
            );
        }
        false
    }

    // The value of the expression among the operands.
    fn value(&self, s: Shape, labels: &[Entry]) -> Read
        ensures { result ≡ line_value (labels_in labels.now) s (body_of (first_line self.now.text.now)) }
    {
        if takes_sum(s.first) {
            return expr::evaluate(self.first(), labels);
        }
        if takes_sum(s.second) {
            return expr::evaluate(self.second(), labels);
        }
        Ok((Value::Is(0), 0))
    }

    fn bits(&self, w: What, at: ByteAddr, v: i32) -> Option<Encoded>
        ensures { result ≡ line_bits w at (body_of (first_line self.now.text.now)) v }
    {
        let s = shape_of(w);
        let one = number_at(s.first, self.first());
        let two = number_at(s.second, self.second());
        let three = number_at(s.third, self.third());
        bits_at(w, at, one, two, three, bits_of(v))
    }

    fn value_check(
        &self,
        w: What,
        at: ByteAddr,
        label: Result<(), Refusal>,
        room: Result<(), Refusal>,
        r: Read,
    ) -> Result<(), Refusal>
        ensures { result ≡ value_check w at (body_of (first_line self.now.text.now)) label room r }
    {
        let Ok((v, _)) = r else {
            return Err(Refusal::Deep);
        };
        match v {
            Value::Is(i) => {
                label?;
                self.bits(w, at, i).ok_or(Refusal::Value)?;
                room
            }
            Value::Large => {
                label?;
                Err(Refusal::Value)
            }
            Value::Unknown => Err(Refusal::Label),
        }
    }

    // `seen` are the labels set before the line, and `room` says whether its bytes lie in the image. Where the form of every line is known,
    // it isn't judged again: with names looked for four at a time, that took a line of an assembler text from 5,653 instructions to 4,614.
    pub fn check(
        &self,
        sure: bool,
        w: What,
        labels: &[Entry],
        seen: &Table,
        at: ByteAddr,
        room: Result<(), Refusal>,
    ) -> Result<(), Refusal>
        ensures { result ≡ check_sure sure (labels_in labels.now) seen.now.keys at room w (first_line self.now.text.now) }
    {
        if sure || self.is_known_as(w) {
            let value = self.value(shape_of(w), labels);
            let label = seen.check(self.label());
            return self.value_check(w, at, label, room, value);
        }
        Err(Refusal::Form)
    }

    pub fn encoded(&self, w: What, labels: &[Entry], at: ByteAddr) -> Option<Encoded>
        ensures { bytes_in result ≡ line_bytes (labels_in labels.now) at w (first_line self.now.text.now) }
    {
        let value = self.value(shape_of(w), labels);
        self.bits(w, at, value_in(value))
    }
}
