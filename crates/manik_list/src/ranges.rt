// A range of an image, and why one is refused: refusal 20 of document 02, ticket 1, by its reasons.
ghost use Rattle.std.specs.Prelude.{◌≡◌};
ghost use Rattle.listing.specs.Lent.{is_out_of};
ghost use Rattle.manik_list.specs.Ranges.{why_of, is_refused};

#[derive(Clone, Copy, PartialEq, Eq)]
pub enum Why {
    TooLong,
    StartOdd,
    EndOdd,
    Reversed,
    Outside,
}

// No ghost field says start ≤ end: the definition why_of speaks of ranges that are reversed too.
#[derive(Clone, Copy)]
pub struct Range {
    pub start: usize,
    pub end: usize,
}

impl Range {
    // The whole image ends at its last even address.
    pub fn whole(length: usize) -> Range {
        Range {
            start: 0,
            end: length / 2 * 2,
        }
    }

    pub fn check(self, length: usize) -> Result<(), Why>
        ensures reason { result ≡ why_of length self.start self.end }
        ensures refused { is_refused result ≡ is_out_of length self.start self.end }
    {
        if 65536 < length {
            return Err(Why::TooLong);
        }
        if self.start % 2 == 1 {
            return Err(Why::StartOdd);
        }
        if self.end % 2 == 1 {
            return Err(Why::EndOdd);
        }
        if self.end < self.start {
            return Err(Why::Reversed);
        }
        if length < self.end {
            return Err(Why::Outside);
        }
        Ok(())
    }
}
