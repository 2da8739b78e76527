ghost use Rattle.std.specs.Prelude.{◌≡◌, ◌≤◌, ◌+◌, ◌-◌, ◌^◌, min, max};

use crate::mapper::Refused;

/// What a mapper has refused.
#[derive(Clone, Copy, Debug, PartialEq, Eq)]
pub struct Refusals {
    /// How many map calls were refused. At 2^64 - 1 the count stands still.
    pub count: u64,
    /// The pages that the last refused call asked.
    pub last: u64,
    /// The most pages that a refused call asked.
    pub most: u64,
}

impl Refusals {
    /// Counts one refusal more, of so many pages.
    pub fn refuse(&mut self, pages: u64) -> Refused
        ensures count { self.new.count ≡ min (self.old.count + 1) (2 ^ 64 - 1) }
        ensures later { self.old.count ≤ self.new.count }
        ensures last { self.new.last ≡ pages }
        ensures most { self.new.most ≡ max self.old.most pages }
        ensures number { result.number ≡ self.new.count }
    {
        self.count = self.count.saturating_add(1);
        self.last = pages;
        self.most = self.most.max(pages);
        Refused { number: self.count }
    }
}
