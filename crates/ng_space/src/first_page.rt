// The words of page 0: for each class the meta of the group that a hand tries first, and how many runs were mapped.
ghost use Rattle.std.specs.Prelude.{◌≡◌, ◌⊎◌, ◌+◌, ◌*◌, ◌<◌};
ghost use Rattle.ng_meta.specs.Place.{IsMetaPlace};
ghost use Rattle.ng_view.specs.LockSteps.{active_set, counter_set};
ghost use Rattle.ng_view.specs.Steps.{loaded};
ghost use Rattle.ng_space.specs.FirstPage.{ReadsCounter};
ghost use Rattle.ng_space.specs.Leaving.{KeepsBook, LeavesAll};

use crate::hand::Hand;
use crate::lock::LockSeat;
use crate::name::Name;
use crate::space::Space;
use std::marker::Brand;

// The active word of class 0; the others come behind it, a cell each.
const ACTIVE_WORDS: u64 = 4;

const CELL: u64 = 4;

const COUNTER_WORD: u64 = 196;

impl<N: Name> Space<N> {
    /// Stores the active word of a class: the meta of a group, or 0.
    pub fn set_active(&self, seat: &mut LockSeat<N>, class: u32, meta: u64)
        requires class { class < 48 }
        requires meta { (meta ≡ 0) ⊎ IsMetaPlace meta N.facts.start.pages }
        ensures { seat.new ≡ active_set seat.old class meta }
    {
        let addr = ACTIVE_WORDS + CELL * u64::from(class);
        self.store_told::<Brand>(&mut seat.seat, addr, meta, meta, class)
    }

    /// Stores the word of the mapping counter.
    pub fn set_counter(&self, seat: &mut LockSeat<N>, value: u32)
        ensures { seat.new ≡ counter_set seat.old value }
    {
        self.store_told::<Brand>(&mut seat.seat, COUNTER_WORD, u64::from(value), 0, 0)
    }

    /// Loads the active word of a class: the meta of a group, which may have ended since it was
    /// stored, or 0.
    pub fn active(&self, hand: &mut Hand<N>, class: u32) -> u64
        requires class { class < 48 }
        ensures view { hand.new.view ≡ loaded hand.old.view (4 * (class + 1)) result }
        ensures place { (result ≡ 0) ⊎ IsMetaPlace result N.facts.start.pages }
        ensures leaves { LeavesAll hand.old.view hand.new.view }
        ensures book { KeepsBook hand.old hand.new }
    {
        self.load(hand, ACTIVE_WORDS + CELL * u64::from(class))
    }

    /// Loads the word of the mapping counter.
    pub fn counter(&self, hand: &mut Hand<N>) -> u32
        ensures view { ReadsCounter hand.old.view result hand.new.view }
        ensures leaves { LeavesAll hand.old.view hand.new.view }
        ensures book { KeepsBook hand.old hand.new }
    {
        (self.load(hand, COUNTER_WORD) % (1 << 32)) as u32
    }
}
