// Bytes of a block that are written.
ghost use Rattle.std.specs.Prelude.{◌+◌, ◌≤◌, length};
ghost use Rattle.ng_bytes.specs.Contents.{AreKnownBytes};
ghost use Rattle.ng_frame.specs.Contents.{KeepsAround};
ghost use Rattle.ng_space.specs.Blocks.{HasBlock, HasFramed, OfSlot};
ghost use Rattle.ng_space.specs.Leaving.{KeepsBook, Leaves, Stays};

use crate::byte::store_byte;
use ng_space::{Block, Hand, Name, Space};

/// Writes bytes of a block, the first of them so many bytes behind its address. The others are kept.
pub fn write<N: Name>(
    space: &Space<N>,
    hand: &mut Hand<N>,
    block: &Block<N>,
    from: u64,
    bytes: &[u8],
)
    requires block { HasBlock hand.old block.now }
    requires within { from + length bytes.now ≤ block.now.len }
    ensures written { OfSlot hand.new block.now.slot (AreKnownBytes (block.now.at + from) bytes.now) }
    ensures around { Stays block.now.slot.meta block.now.slot.index hand.old.view hand.new.view (KeepsAround (block.now.at + from) (block.now.at + from + length bytes.now)) }
    ensures has { HasBlock hand.new block.now }
    ensures framed { HasFramed hand.old block.now → HasFramed hand.new block.now }
    ensures leaves { Leaves block.now.slot hand.old.view hand.new.view }
    ensures book { KeepsBook hand.old hand.new }
{
    let _len = block.len();
    for i in 0..bytes.len() {
        store_byte(space, hand, block, from + i as u64, bytes[i]);
    }
}
