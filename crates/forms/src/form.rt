// The form of a line.
ghost use Rattle.std.specs.Prelude.{◌≡◌};
ghost use Rattle.forms.specs.Form.{named, what_at, number_at, is_of, is_label};
ghost use Rattle.forms.specs.Parts.{place_in, fits_fields, known_fields};

use crate::shapes::{numbered, place_in, register, tabs_for, what_at};
use crate::{Shape, Sort, What};

// How many registers there are, SFRs, and SFRs that jsfr takes.
const REGS: u32 = 16;

const SFRS: u32 = 11;

const LOW_SFRS: u32 = 4;

// What a name names. The table of mnemonics is lent, since it is made anew wherever it is called for.
pub fn what_of(name: &[u8], table: &[u64; 312]) -> What
    ensures { result ≡ what_at (place_in table.now (named name.now)) }
{
    what_at(place_in(table, expr::label(name)))
}

#[tactic(auto, unfolding(crate::specs::Form::number_at))]
pub fn number_at(s: Sort, field: &[u8]) -> u32
    ensures { result ≡ number_at s field.now }
{
    match s {
        Sort::Reg => register(field),
        Sort::Sfr => numbered(b"sfr", SFRS, field),
        Sort::LowSfr => numbered(b"sfr", LOW_SFRS, field),
        Sort::Nothing | Sort::Never | Sort::Sum => 0,
    }
}

#[tactic(auto, unfolding(crate::specs::Form::is_of))]
fn is_of(s: Sort, field: &[u8]) -> bool
    ensures { result ≡ is_of s field.now }
{
    match s {
        Sort::Nothing => true,
        Sort::Never => false,
        Sort::Reg => number_at(s, field) < REGS,
        Sort::Sfr => number_at(s, field) < SFRS,
        Sort::LowSfr => number_at(s, field) < LOW_SFRS,
        Sort::Sum => expr::is_sum(field),
    }
}

fn is_label(field: &[u8]) -> bool
    ensures { result ≡ is_label field.now }
{
    field.is_empty() || 0 < expr::label(field)
}

fn fits_shape(s: Shape, tabs: usize, x: &[u8], y: &[u8], z: &[u8]) -> bool
    ensures { result ≡ fits_fields s tabs x.now y.now z.now }
{
    tabs == tabs_for(s) && is_of(s.first, x) && is_of(s.second, y) && is_of(s.third, z)
}

// Whether a line is of known form that has so many tabs, its own label, and three operand fields, of which it may lack some.
pub fn is_known(s: Shape, tabs: usize, label: &[u8], x: &[u8], y: &[u8], z: &[u8]) -> bool
    ensures { result ≡ known_fields s tabs label.now x.now y.now z.now }
{
    is_label(label) && fits_shape(s, tabs, x, y, z)
}
