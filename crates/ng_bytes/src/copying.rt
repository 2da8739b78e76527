// Bytes of a block that are copied to another.
ghost use Rattle.std.specs.Prelude.{◌≡◌, ℕ, ◌+◌, ◌≤◌, Some};
ghost use Rattle.ng_bytes.specs.Contents.{AreCopied};
ghost use Rattle.ng_frame.specs.Contents.{KeepsAround};
ghost use Rattle.ng_frame.specs.Inspects.{gap_of};
ghost use Rattle.ng_space.specs.Blocks.{HasBlock, HasFramed};
ghost use Rattle.ng_space.specs.Leaving.{IsOther, KeepsBook, Leaves, Stays};
ghost use Rattle.ng_view.specs.Lists.{find};
ghost use Rattle.ng_view.specs.declared.view.Held.{Held};

use crate::cell::{load_cell, store_low};
use ng_space::{Block, Hand, Name, Space};

/// Copies the first `count` bytes of a block to another, a cell at a time.
pub fn copy<N: Name>(
    space: &Space<N>,
    hand: &mut Hand<N>,
    from: &Block<N>,
    to: &Block<N>,
    count: u64,
)
    requires from { HasBlock hand.old from.now }
    requires to { HasBlock hand.old to.now }
    requires apart { IsOther to.now.slot from.now.slot.meta from.now.slot.index }
    requires some { count ≤ gap_of from.now }
    requires within { count ≤ to.now.len }
    ensures copied { (h k : Held) → find from.now.slot.meta from.now.slot.index hand.new.view.held ≡ Some h → find to.now.slot.meta to.now.slot.index hand.new.view.held ≡ Some k → AreCopied from.now.at to.now.at count h k }
    ensures around { Stays to.now.slot.meta to.now.slot.index hand.old.view hand.new.view (KeepsAround to.now.at (to.now.at + count)) }
    ensures from { HasBlock hand.new from.now }
    ensures to { HasBlock hand.new to.now }
    ensures framed { HasFramed hand.old to.now → HasFramed hand.new to.now }
    ensures framed_from { HasFramed hand.old from.now → HasFramed hand.new from.now }
    ensures leaves { Leaves to.now.slot hand.old.view hand.new.view }
    ensures book { KeepsBook hand.old hand.new }
{
    let _gap = from.gap();
    let _room = to.gap();
    let first = from.at();
    let at = to.at();
    let mut done = 0;
    while done < count {
        let some = (count - done).min(4);
        let word = load_cell(space, hand, from, first + done);
        store_low(space, hand, to, at + done, (word % (1 << 32)) as u32, some);
        done += some;
    }
}
