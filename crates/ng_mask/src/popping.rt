ghost use Rattle.std.specs.Prelude.{◌≡◌, ◌<◌};
ghost use Rattle.ng_meta.specs.Place.{IsMetaPlace};
ghost use Rattle.ng_space.specs.Placed.{AreOnce};
ghost use Rattle.ng_space.specs.Tokens.{HasSlot};
ghost use Rattle.ng_mask.specs.Pops.{HasPopCause, OnWon, PopLeaves};

use crate::outcome::Pop;
use ng_meta::{AVAIL, mask_of, tag_of};
use ng_space::{Hand, Name, Space};

/// The most exchanges that one call makes.
pub(crate) const MOST_TRIES: u32 = 32;

/// Takes the lowest slot that is available in the group of a meta, if the group is of that class.
pub fn pop<N: Name>(space: &Space<N>, hand: &mut Hand<N>, meta: u64, class: u32) -> Pop<N>
    requires place { IsMetaPlace meta N.facts.start.pages }
    requires class { class < 48 }
    ensures won { OnWon result (HasSlot hand.new) }
    ensures once { OnWon result (λ slot. AreOnce hand.new.view) }
    ensures meta { OnWon result (λ slot. slot.meta ≡ meta) }
    ensures cause { HasPopCause hand.old.view meta class result hand.new.view }
    ensures leaves { PopLeaves result hand.old.view hand.new.view }
    ensures number { hand.new.number ≡ hand.old.number }
    ensures spare { hand.new.spare ≡ hand.old.spare }
    ensures entries { hand.new.entries ≡ hand.old.entries }
{
    for lost in 0..MOST_TRIES {
        let seen = space.load(hand, meta + AVAIL);
        let tag = tag_of(seen);
        if tag != class + 1 {
            return Pop::Other { tag };
        }
        if mask_of(seen) == 0 {
            return Pop::Bare;
        }
        if let Ok(slot) = space.pop_step(hand, meta, seen) {
            return Pop::Won(slot);
        }
    }
    Pop::Lost
}
