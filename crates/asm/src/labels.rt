// The table of labels: at most 256, since there is no heap.
ghost use Rattle.std.specs.Prelude.{◌≡◌};
ghost use Rattle.expr.specs.Expr.{none, labels_in};
ghost use Rattle.asm.specs.Assemble.{is_new, with_label, label_check};

use crate::Refusal;
use expr::Entry;
use std::marker::Model;
use word::ByteAddr;

// The labels are the first `count` entries.
#[derive(Drop)]
pub struct Table {
    entries: [Entry; 256],
    count: usize,
}

impl Model for Table {
    ghost use Rattle.std.specs.Prelude.{◌≤◌, take};
    ghost use Rattle.expr.specs.Expr.{Labels, labels_in};

    ghost Value = { Labels };

    ghost view = { λ t. labels_in (take t.count t.entries) };

    ghost invariant = { λ t. t.count ≤ 256 };
}

impl Table {
    pub fn new() -> Self
        ensures { result ≡ none }
    {
        Table {
            entries: [Entry { name: 0, place: 0 }; 256],
            count: 0,
        }
    }

    pub fn labels(&self) -> &[Entry]
        ensures { labels_in result.now ≡ self.now }
    {
        &self.entries[..self.count]
    }

    // Number 0 is no label: `is_new` and `label_check` of specs/Assemble.antt compare with it.
    fn is_new(&self, k: u64) -> bool
        ensures { result ≡ is_new self.now.keys k }
    {
        let set = self.labels();
        k != 0 && expr::place(set, k).is_none() && set.len() < 256
    }

    pub fn add(&mut self, k: u64, at: ByteAddr)
        ensures { self.new ≡ with_label self.old k at }
    {
        if self.is_new(k) {
            self.entries[self.count] = Entry {
                name: k,
                place: at.0,
            };
            self.count += 1;
        }
    }

    // What is wrong with one label more.
    pub fn check(&self, k: u64) -> Result<(), Refusal>
        ensures { result ≡ label_check self.now.keys k }
    {
        if k == 0 {
            return Ok(());
        }
        let set = self.labels();
        if expr::place(set, k).is_some() {
            return Err(Refusal::Twice);
        }
        if set.len() < 256 {
            return Ok(());
        }
        Err(Refusal::Many)
    }
}
