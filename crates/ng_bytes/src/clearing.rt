// Bytes of a block that are made 0.
ghost use Rattle.std.specs.Prelude.{◌+◌, ◌≤◌};
ghost use Rattle.ng_bytes.specs.Contents.{AreZero};
ghost use Rattle.ng_frame.specs.Contents.{KeepsAround};
ghost use Rattle.ng_space.specs.Blocks.{HasBlock, HasFramed, OfSlot};
ghost use Rattle.ng_space.specs.Leaving.{KeepsBook, Leaves, Stays};

use crate::cell::store_low;
use ng_space::{Block, Hand, Name, Space};

/// Makes the first `count` bytes of a block 0. A cell that is 0 already isn't stored.
pub fn clear<N: Name>(space: &Space<N>, hand: &mut Hand<N>, block: &Block<N>, count: u64)
    requires block { HasBlock hand.old block.now }
    requires within { count ≤ block.now.len }
    ensures zero { OfSlot hand.new block.now.slot (AreZero block.now.at count) }
    ensures around { Stays block.now.slot.meta block.now.slot.index hand.old.view hand.new.view (KeepsAround block.now.at (block.now.at + count)) }
    ensures has { HasBlock hand.new block.now }
    ensures framed { HasFramed hand.old block.now → HasFramed hand.new block.now }
    ensures leaves { Leaves block.now.slot hand.old.view hand.new.view }
    ensures book { KeepsBook hand.old hand.new }
{
    let _gap = block.gap();
    let at = block.at();
    let mut done = 0;
    while done < count {
        let some = (count - done).min(4);
        store_low(space, hand, block, at + done, 0, some);
        done += some;
    }
}
