//! What decides about groups.
ghost use Rattle.std.specs.Prelude.{◌≡◌, ℕ, Bool};
ghost use Rattle.ng_policy.specs.Ask.{AskInRange, SpareInRange, IsCount};
ghost use Rattle.ng_policy.specs.declared.ask.Ask.{Ask};
ghost use Rattle.ng_policy.specs.declared.ask.Spare.{Spare};

use crate::ask::{Ask, Spare};
use std::marker::Model;

/// What decides about groups.
pub trait Rules {
    /// The fact under which the rules may be asked.
    ghost good: { Self → Type 0 };

    /// What `count` may answer to an ask.
    ghost count_gives: { Self → Ask → ℕ → Type 0 };

    /// What `keep` may answer to a spare.
    ghost keep_gives: { Self → Spare → Bool → Type 0 };

    /// How many slots the new group has: from 1 to 32, with fewer than 65536 units together.
    fn count(&self, ask: Ask) -> u32
        requires good { good self.now }
        requires ask { AskInRange ask }
        ensures allowed { IsCount ask.class result }
        ensures answer { count_gives self.now ask result };

    /// Whether the group is kept, though all of its slots are free.
    fn keep(&self, spare: Spare) -> bool
        requires good { good self.now }
        requires spare { SpareInRange spare }
        ensures answer { keep_gives self.now spare result };
}

/// Rules, beside the fact under which they may be asked. Contracts see the rules.
#[derive(Drop)]
pub struct Kept<P: Rules> {
    rules: P,
}

impl<P: Rules> Model for Kept<P> {
    ghost Value = { P };

    ghost view = { λ kept. kept.rules };

    ghost invariant = { λ kept. P.good kept.rules };
}

impl<P: Rules> Kept<P> {
    /// Stores the rules.
    pub fn new(rules: P) -> Kept<P>
        requires { P.good rules }
        ensures { result ≡ rules }
    {
        Kept { rules }
    }

    /// How many slots the new group has: from 1 to 32, with fewer than 65536 units together.
    pub fn count(&self, ask: Ask) -> u32
        requires { AskInRange ask }
        ensures allowed { IsCount ask.class result }
        ensures answer { P.count_gives self.now ask result }
    {
        self.rules.count(ask)
    }

    /// Whether the group is kept, though all of its slots are free.
    pub fn keep(&self, spare: Spare) -> bool
        requires { SpareInRange spare }
        ensures { P.keep_gives self.now spare result }
    {
        self.rules.keep(spare)
    }
}
