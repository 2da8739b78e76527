//! Which classes bounce: their groups are often unmapped and soon mapped again.
ghost use Rattle.std.specs.Prelude.{◌≡◌, ◌+◌, ◌↔◌, IsTrue, IsSome, IfSome};
ghost use Rattle.ng_policy.specs.Bounce.{no_bounces, stepped, stamped, accounted, decayed, IsWatched, IsBouncing};

use std::marker::Model;

/// The first class that is watched.
const FIRST: u32 = 7;

/// The last class that is watched.
const LAST: u32 = 38;

/// How often the classes 7 to 38 bounced. Contracts see a record of seq, last and count.
#[derive(Debug, Drop)]
pub struct Bounce {
    seq: u8,
    last: [u8; 32],
    count: [u8; 32],
}

impl Model for Bounce {
    ghost use Rattle.ng_policy.specs.Bounce.{Bounces, AreStampsPast};

    ghost Value = { Bounces };

    ghost view = { λ b. record { seq = b.seq; last = b.last; count = b.count } };

    ghost invariant = { λ b. AreStampsPast b.last b.seq };
}

impl Bounce {
    /// Nothing has bounced.
    pub fn new() -> Bounce
        ensures { result ≡ no_bounces }
    {
        Bounce {
            seq: 0,
            last: [0; 32],
            count: [0; 32],
        }
    }

    /// Counts a mapping or an unmapping.
    #[tactic(auto, unfolding(crate::specs::Bounce::stepped))]
    pub fn step(&mut self)
        ensures { self.new ≡ stepped self.old }
    {
        if self.seq == 255 {
            self.seq = 1;
            self.last = [0; 32];
        } else {
            self.seq += 1;
        }
    }

    /// Notes that a group of the class was unmapped now.
    #[tactic(auto, unfolding(crate::specs::Bounce::stamped))]
    pub fn stamp(&mut self, class: u32)
        ensures { self.new ≡ stamped self.old class }
    {
        if let Some(place) = place_of(class) {
            self.last[place] = self.seq;
        }
    }

    /// Counts a bounce where a group of the class was unmapped not long ago.
    #[tactic(auto, unfolding(crate::specs::Bounce::accounted))]
    pub fn account(&mut self, class: u32)
        ensures { self.new ≡ accounted self.old class }
    {
        if let Some(place) = place_of(class) {
            let last = self.last[place];
            if last != 0 && self.seq - last < 10 {
                let count = self.count[place];
                self.count[place] = if count < 99 { count + 1 } else { 150 };
            }
        }
    }

    /// Counts a bounce less.
    #[tactic(auto, unfolding(crate::specs::Bounce::decayed))]
    pub fn decay(&mut self, class: u32)
        ensures { self.new ≡ decayed self.old class }
    {
        if let Some(place) = place_of(class) {
            self.count[place] = self.count[place].saturating_sub(1);
        }
    }

    /// Whether the class has bounced often.
    pub fn bouncing(&self, class: u32) -> bool
        ensures { IsTrue result ↔ IsBouncing self.now class }
    {
        match place_of(class) {
            Some(place) => self.count[place] >= 100,
            None => false,
        }
    }
}

// Where the class stands in the arrays.
fn place_of(class: u32) -> Option<usize>
    ensures some { IsSome result ↔ IsWatched class }
    ensures place { IfSome result (λ place. place + 7 ≡ class) }
{
    if (FIRST..=LAST).contains(&class) {
        Some((class - FIRST) as usize)
    } else {
        None
    }
}
