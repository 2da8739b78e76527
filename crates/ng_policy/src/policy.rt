//! Rules of two closures.
ghost use Rattle.std.specs.Prelude.{◌≡◌};
ghost use Rattle.ng_policy.specs.Policy.{Counts, Keeps};

use crate::ask::{Ask, Spare};
use crate::rules::Rules;

/// Two closures that decide about groups.
#[derive(Drop)]
pub struct Policy<C, K> {
    /// How many slots a new group has.
    count: C,
    /// Whether a group whose slots are all free is kept.
    keep: K,
}

impl<C: Fn(Ask) -> u32, K: Fn(Spare) -> bool> Policy<C, K> {
    /// The policy of these closures. The first must answer each ask in range, with a number of slots
    /// from 1 to 32 that have fewer than 65536 units together. The second must answer each spare in
    /// range.
    pub fn new(count: C, keep: K) -> Policy<C, K>
        requires counts { Counts C.pre C.post count }
        requires keeps { Keeps K.pre keep }
        ensures count { result.count ≡ count }
        ensures keep { result.keep ≡ keep }
    {
        Policy { count, keep }
    }
}

impl<C: Fn(Ask) -> u32, K: Fn(Spare) -> bool> Rules for Policy<C, K> {
    ghost good = { λ policy. Counts C.pre C.post policy.count × Keeps K.pre policy.keep };

    ghost count_gives = { λ policy. C.post policy.count };

    ghost keep_gives = { λ policy. K.post policy.keep };

    fn count(&self, ask: Ask) -> u32 {
        (self.count)(ask)
    }

    fn keep(&self, spare: Spare) -> bool {
        (self.keep)(spare)
    }
}
