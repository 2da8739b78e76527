ghost use Rattle.std.specs.Prelude.{◌≡◌, ◌+◌, ◌%◌, ◌<◌, ◌^◌};
ghost use Rattle.ng_class.specs.Mask.{all_bits_of};
ghost use Rattle.ng_space.specs.Tokens.{HasSlot};
ghost use Rattle.ng_mask.specs.Pushes.{HasPushCause, OnLeft, PushLeaves};

use crate::outcome::{Needs, Push};
use crate::popping::MOST_TRIES;
use ng_class::all_bits;
use ng_meta::{AVAIL, FLAGS, FREED, mask_of};
use ng_space::{Hand, Name, Slot, Space};

/// Puts a slot into its group's freed mask, unless the group then needs more than that.
pub fn push<N: Name>(space: &Space<N>, hand: &mut Hand<N>, mut slot: Slot<N>) -> Push<N>
    requires slot { HasSlot hand.old slot }
    ensures left { OnLeft result (λ left. left ≡ slot) }
    ensures held { OnLeft result (HasSlot hand.new) }
    ensures cause { HasPushCause hand.old.view slot.meta slot.index result hand.new.view }
    ensures leaves { PushLeaves slot result hand.old.view hand.new.view }
    ensures number { hand.new.number ≡ hand.old.number }
    ensures spare { hand.new.spare ≡ hand.old.spare }
    ensures entries { hand.new.entries ≡ hand.old.entries }
{
    let meta = slot.meta();
    let flags = space.load(hand, meta + FLAGS);
    let all = all_bits((flags % 32) as u32);
    let bit = 1u32 << slot.index();
    for lost in 0..MOST_TRIES {
        let freed = mask_of(space.load(hand, meta + FREED));
        let avail = mask_of(space.load(hand, meta + AVAIL));
        if freed == 0 {
            return Push::Left(slot, Needs::First);
        }
        if freed | avail | bit == all {
            return Push::Left(slot, Needs::Last { freed, avail });
        }
        match space.push_step(hand, slot, freed) {
            Ok(()) => return Push::Done,
            Err((left, _)) => slot = left,
        }
    }
    Push::Left(slot, Needs::Lost)
}
