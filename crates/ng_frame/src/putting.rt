ghost use Rattle.std.specs.Prelude.{◌≡◌, ◌≢◌, ◌≤◌};
ghost use Rattle.ng_terms.specs.Heap.{IsAlignment};
ghost use Rattle.ng_terms.specs.declared.entry.Entry.TheVariants.{Give};
ghost use Rattle.ng_space.specs.Blocks.{BlockToken, HasBlock, HasFramed, OfSlot, Serves};
ghost use Rattle.ng_space.specs.Tokens.{HasSlot};
ghost use Rattle.ng_space.specs.Leaving.{Entered, Leaves, LiesStill, Stays};
ghost use Rattle.ng_frame.specs.Puts.{IsNear, IsPlace, asked_for, place_of, put_at};

use crate::offset::{store_mark, store_wide};
use crate::trailer::store_trailer;
use ng_space::{Block, Hand, Name, Slot, Space};

/// Puts a block of n bytes with an align into a slot, and enters it: at the first fitting place from
/// an offset of [`crate::next_offset`] on, which was asked for the block and the room to align in.
///
/// Its frame is stored: the header cell, the trailer, the distance at the slot's start where the
/// block begins further on, and the wide offset in front of the header where that has no room for it.
pub fn put<N: Name>(
    space: &Space<N>,
    hand: &mut Hand<N>,
    slot: Slot<N>,
    n: u64,
    align: u64,
    offset: u64,
) -> Block<N>
    requires spare { 1 ≤ hand.old.spare }
    requires slot { HasSlot hand.old slot }
    requires alignment { IsAlignment align }
    requires serves { OfSlot hand.old slot (Serves n align) }
    requires near { IsNear slot (asked_for n align) offset }
    ensures block { result ≡ put_at slot n align offset }
    ensures framed { HasFramed hand.new result }
    ensures apart { (other : BlockToken) → HasBlock hand.old other → other.at ≢ result.at }
    ensures still { Stays slot.meta slot.index hand.old.view hand.new.view LiesStill }
    ensures entered { Entered hand.old hand.new (Give n align result.at) }
    ensures leaves { Leaves slot hand.old.view hand.new.view }
{
    let at = place(&slot, n, align, offset);
    let reserved = slot.end() - at - n;
    store_mark(space, hand, &slot, at);
    store_trailer(space, hand, &slot, reserved);
    store_wide(space, hand, &slot, at);
    space.give(hand, slot, at, n, align)
}

// Where a block begins: at the first multiple of its align, and of 16, from an offset on.
fn place<N: Name>(slot: &Slot<N>, n: u64, align: u64, offset: u64) -> u64
    requires alignment { IsAlignment align }
    requires near { IsNear slot.now (asked_for n align) offset }
    ensures value { result ≡ place_of slot.now align offset }
    ensures fits { IsPlace slot.now n align result }
{
    // A slot ends in the space, and so no place in it is too high.
    let _end = slot.end();
    (slot.start() + 16 * offset).next_multiple_of(align.max(16))
}
