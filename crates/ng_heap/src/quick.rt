// Blocks that are given without the lock.
ghost use Rattle.std.specs.Prelude.{◌≡◌, ◌≤◌};
ghost use Rattle.ng_heap.specs.Making.{IsMade};
ghost use Rattle.ng_heap.specs.Trying.{HasQuickCause, LeavesQuickly, OnGiven};
ghost use Rattle.ng_space.specs.Leaving.{KeepsSlots};

use crate::heap::Heap;
use ng_class::class_of;
use ng_frame::{next_offset, put};
use ng_history::LARGE;
use ng_mask::{Pop, pop};
use ng_space::{Block, Hand, Name};

/// What came of a malloc without the lock.
pub enum Quick<N: Name> {
    /// The block, in a slot of the active group of its class.
    Given(Block<N>),
    /// The request is too large for every heap, and is entered.
    TooLarge,
    /// The block is to be a group by itself.
    Large,
    /// No group is active for the class.
    Idle,
    /// The avail mask of the active group is 0.
    Bare,
    /// The active group has ended: its meta has one of another class, whose tag this is, or none, with tag 0.
    Other { tag: u32 },
    /// Others changed the word before each of 32 exchanges.
    Lost,
}

impl<N: Name> Heap<N> {
    /// Gives a block of `n` bytes, aligned to 16, if the active group of their class has a slot. It takes no lock and
    /// waits for nothing. Where it gives none, nothing is stored; a request that is too large is entered, and any other
    /// is left to [`Heap::malloc_in`].
    pub fn malloc_unlocked(&self, hand: &mut Hand<N>, n: u64) -> Quick<N>
        requires spare { 1 ≤ hand.old.spare }
        ensures made { OnGiven result (λ block. IsMade n 16 hand.old block hand.new) }
        ensures cause { HasQuickCause n hand.old result hand.new }
        ensures leaves { LeavesQuickly n hand.old result hand.new }
        ensures slots { KeepsSlots hand.old.view hand.new.view }
    {
        if n >= LARGE {
            self.enter_too_large(hand, 1, n, 16);
            return Quick::TooLarge;
        }
        let Some(class) = class_of(n) else {
            return Quick::Large;
        };
        // The group may have ended since: its tag is compared as the slot is taken.
        let meta = self.space.active(hand, class);
        if meta == 0 {
            return Quick::Idle;
        }
        match pop(&self.space, hand, meta, class) {
            Pop::Won(slot) => {
                let counter = self.space.counter(hand);
                let offset = next_offset(&self.space, hand, &slot, n, u64::from(counter));
                Quick::Given(put(&self.space, hand, slot, n, 16, offset))
            }
            Pop::Bare => Quick::Bare,
            Pop::Other { tag } => Quick::Other { tag },
            Pop::Lost => Quick::Lost,
        }
    }
}
