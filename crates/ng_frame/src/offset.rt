// Where the next block of a slot begins.
ghost use Rattle.std.specs.Prelude.{◌≡◌, ◌⊎◌, ◌%◌, ◌+◌, ◌*◌, ◌<◌, ◌≤◌, ◌^◌};
ghost use Rattle.ng_view.specs.Frame.{IsShift, field_of};
ghost use Rattle.ng_space.specs.Blocks.{OfSlot};
ghost use Rattle.ng_space.specs.Tokens.{HasSlot};
ghost use Rattle.ng_space.specs.Leaving.{KeepsBook, KeepsCells, Leaves, LeavesAll, Stays};
ghost use Rattle.ng_frame.specs.Puts.{Cycles, IsNarrowOrFirst, IsNear, IsWhole, KnowsWide};

use ng_header::cycle;
use ng_space::{Hand, Name, Slot, Space};

// Byte 1 of the header cell at a slot's start whose block begins further on.
pub(crate) const MARK: u32 = 224;

/// Where the next block of n bytes begins in a slot: its offset from the slot's start, in units of
/// 16 bytes. It is the next in the slot's cycle, by the header cell that is found at the start, and
/// by the counter where that keeps no offset. One word is loaded, and nothing is stored.
pub fn next_offset<N: Name>(
    space: &Space<N>,
    hand: &mut Hand<N>,
    slot: &Slot<N>,
    n: u64,
    counter: u64,
) -> u64
    requires slot { HasSlot hand.old slot.now }
    requires fits { n + 4 ≤ slot.now.room }
    ensures cycles { Cycles hand.old.view slot.now n counter result hand.new.view }
    ensures near { IsNear slot.now n result }
    ensures slot { HasSlot hand.new slot.now }
    ensures leaves { LeavesAll hand.old.view hand.new.view }
    ensures book { KeepsBook hand.old hand.new }
{
    let slack = (slot.room() - 4 - n) / 16;
    // A slot ends in the space, and so its cells are there.
    let _end = slot.end();
    // That the start is a whole cell is told by the load itself.
    let front = slot.start() / 4 * 4 - 4;
    let header = (space.load(hand, front) % (1 << 32)) as u32;
    cycle(kept_field(header), slack, counter)
}

// The field that the header cell at a slot's start keeps, if it keeps one.
fn kept_field(header: u32) -> Option<u32>
    ensures value { result ≡ field_of header }
{
    if header / 256 % 256 >= 1 {
        Some(header / 65536)
    } else {
        None
    }
}

// Where a block doesn't begin at the slot's start, the header cell there gets its distance in units of
// 16 bytes, as far as 16 bits have room.
pub(crate) fn store_mark<N: Name>(space: &Space<N>, hand: &mut Hand<N>, slot: &Slot<N>, at: u64)
    requires slot { HasSlot hand.old slot.now }
    requires whole { IsWhole slot.now }
    requires from { slot.now.start ≤ at }
    ensures shift { OfSlot hand.new slot.now (λ h. IsShift h at) }
    ensures slot { HasSlot hand.new slot.now }
    ensures own { Stays slot.now.meta slot.now.index hand.old.view hand.new.view (KeepsCells (λ a. slot.now.start ≤ a)) }
    ensures leaves { Leaves slot.now hand.old.view hand.new.view }
    ensures book { KeepsBook hand.old hand.new }
{
    let start = slot.start();
    if at != start {
        let distance = ((at - start) / 16 % 65536) as u32;
        space.store_own(hand, slot, start - 4, MARK * 256 + distance * 65536);
    }
}

// Where a block's offset has no room in its header, the cell before that gets it. Only a group of one
// slot is so large.
pub(crate) fn store_wide<N: Name>(space: &Space<N>, hand: &mut Hand<N>, slot: &Slot<N>, at: u64)
    requires slot { HasSlot hand.old slot.now }
    requires whole { IsWhole slot.now }
    requires narrow { IsNarrowOrFirst slot.now }
    requires at { at % 16 ≡ 0 }
    requires from { slot.now.start ≤ at }
    requires roomy { at < slot.now.start + slot.now.room }
    ensures wide { OfSlot hand.new slot.now (KnowsWide slot.now at) }
    ensures slot { HasSlot hand.new slot.now }
    ensures own { Stays slot.now.meta slot.now.index hand.old.view hand.new.view (KeepsCells (λ a. (a < slot.now.start) ⊎ (at ≤ a))) }
    ensures leaves { Leaves slot.now hand.old.view hand.new.view }
    ensures book { KeepsBook hand.old hand.new }
{
    let offset = (at - slot.start()) / 16;
    // A slot ends in the space, and so each offset in it has 32 bits.
    let _end = slot.end();
    if offset >= 65536 {
        space.store_own(hand, slot, at - 8, offset as u32);
    }
}
