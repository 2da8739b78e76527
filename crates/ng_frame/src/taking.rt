ghost use Rattle.std.specs.Prelude.{◌≡◌, ◌≤◌, IfErr, IfOk, IsOk};
ghost use Rattle.ng_space.specs.Blocks.{HasBlock, HasFramed};
ghost use Rattle.ng_space.specs.Tokens.{HasSlot};
ghost use Rattle.ng_space.specs.Leaving.{Entered, Leaves, LeavesAll};
ghost use Rattle.ng_frame.specs.Inspects.{Refuses, Takes, damage_of, free_entry};
ghost use Rattle.ng_frame.specs.Judging.{IsKnownDamage};

use crate::damage::{Damage, find_damage};
use ng_space::{Block, Hand, Name, Slot, Space};
use ng_terms::Entry;

/// Takes a block out of its slot, which stays in the hand. A block whose frame is damaged comes
/// back with the damage, and nothing is stored. Either is entered.
pub fn take_out<N: Name>(
    space: &Space<N>,
    hand: &mut Hand<N>,
    block: Block<N>,
) -> Result<Slot<N>, (Block<N>, Damage)>
    requires spare { 1 ≤ hand.old.spare }
    requires block { HasBlock hand.old block }
    ensures slot { IfOk result (λ slot. slot ≡ block.slot) }
    ensures has { IfOk result (HasSlot hand.new) }
    ensures ok { IfOk result (λ slot. Takes hand.old.view block hand.old.number hand.new.view) }

    // A block whose frame the hand knows is taken.
    ensures framed { HasFramed hand.old block → IsOk result }
    // Where the frame's verdict is known, it decides.
    ensures known { IsKnownDamage hand.old block (damage_of result) }

    ensures block { IfErr result (λ left. left.0 ≡ block) }
    ensures cause { IfErr result (λ left. Refuses hand.old block left.1 hand.new) }
    ensures still { IfErr result (λ left. HasBlock hand.new left.0) }
    ensures kept { IfErr result (λ left. LeavesAll hand.old.view hand.new.view) }

    ensures entered { Entered hand.old hand.new (free_entry block.at result) }
    ensures leaves { Leaves block.slot hand.old.view hand.new.view }
{
    match find_damage(space, hand, &block) {
        Some(found) => {
            let at = block.at();
            let name = found.number();
            space.enter(hand, Entry::Refused { at, name });
            Err((block, found))
        }
        None => Ok(space.kill(hand, block)),
    }
}
