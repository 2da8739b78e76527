// A block gets another length where it stands.
ghost use Rattle.std.specs.Prelude.{◌≡◌, ◌≢◌, ℕ, ◌+◌, ◌-◌, ◌*◌, ◌/◌, ◌%◌, ◌<◌, ◌≤◌};
ghost use Rattle.ng_terms.specs.declared.entry.Entry.TheVariants.{Resize};
ghost use Rattle.ng_view.specs.Frame.{IsShift, IsTrailer, KnowsByte};
ghost use Rattle.ng_space.specs.Blocks.{HasBlock, HasFramed, OfSlot, Serves};
ghost use Rattle.ng_space.specs.Leaving.{Entered, KeepsBook, KeepsCells, Leaves, LiesStill, Stays};
ghost use Rattle.ng_frame.specs.Contents.{KeepsBytes};
ghost use Rattle.ng_frame.specs.Besides.{LeavesBesides};
ghost use Rattle.ng_frame.specs.Puts.{IsWhole};

use crate::trailer::without_byte;
use ng_space::{Block, Hand, Name, Space};

/// Gives a block another length where it stands, and enters it. Its trailer and its header cell alone
/// are stored.
pub fn resize<N: Name>(space: &Space<N>, hand: &mut Hand<N>, block: Block<N>, n: u64) -> Block<N>
    requires spare { 1 ≤ hand.old.spare }
    requires block { HasBlock hand.old block }
    requires marked { OfSlot hand.old block.slot (λ h. IsShift h block.at) }
    requires serves { OfSlot hand.old block.slot (Serves n 16) }
    requires within { block.at + n ≤ block.slot.end }
    ensures block { result ≡ record block { len = n; align = 16 } }
    ensures framed { HasFramed hand.new result }
    ensures kept { Stays block.slot.meta block.slot.index hand.old.view hand.new.view (KeepsBytes block.at (block.at + n)) }
    ensures still { Stays block.slot.meta block.slot.index hand.old.view hand.new.view LiesStill }
    ensures entered { Entered hand.old hand.new (Resize block.at n) }
    ensures leaves { Leaves block.slot hand.old.view hand.new.view }
{
    let reserved = block.gap() - n;
    // The load tells where in its slot the block lies, and where its offset stands.
    let front = block.at() - 4;
    space.load(hand, front);
    store_trailer_behind(space, hand, &block, reserved);
    space.regive(hand, block, n)
}

// Stores the trailer of so many bytes between a block and the end of its slot.
fn store_trailer_behind<N: Name>(
    space: &Space<N>,
    hand: &mut Hand<N>,
    block: &Block<N>,
    reserved: u64,
)
    requires block { HasBlock hand.old block.now }
    requires whole { IsWhole block.now.slot }
    requires within { block.now.at + reserved ≤ block.now.slot.end }
    ensures trailer { OfSlot hand.new block.now.slot (λ h. IsTrailer h reserved) }
    ensures block { HasBlock hand.new block.now }
    ensures own { Stays block.now.slot.meta block.now.slot.index hand.old.view hand.new.view (KeepsCells (λ a. a < block.now.at)) }
    ensures bytes { (y b : ℕ) → y < block.now.slot.end - reserved
        → OfSlot hand.old block.now.slot (KnowsByte y b) → OfSlot hand.new block.now.slot (KnowsByte y b) }
    ensures leaves { LeavesBesides block.now.slot hand.old.view hand.new.view }
    ensures book { KeepsBook hand.old hand.new }
{
    if reserved == 0 {
        return;
    }
    let end = block.at() + block.gap();
    clear_byte_behind(space, hand, block, end - reserved);
    if reserved >= 5 {
        space.store_in(hand, block, end - 4, reserved as u32);
        clear_byte_behind(space, hand, block, end - 5);
    }
}

// Makes one byte between a block's address and the end of its slot 0.
fn clear_byte_behind<N: Name>(space: &Space<N>, hand: &mut Hand<N>, block: &Block<N>, at: u64)
    requires block { HasBlock hand.old block.now }
    requires whole { IsWhole block.now.slot }
    requires begins { block.now.at % 16 ≡ 0 }
    requires from { block.now.at ≤ at }
    requires below { at < block.now.slot.end }
    ensures zero { OfSlot hand.new block.now.slot (KnowsByte at 0) }
    ensures others { (y b : ℕ) → y ≢ at
        → OfSlot hand.old block.now.slot (KnowsByte y b) → OfSlot hand.new block.now.slot (KnowsByte y b) }
    ensures block { HasBlock hand.new block.now }
    ensures own { Stays block.now.slot.meta block.now.slot.index hand.old.view hand.new.view (KeepsCells (λ a. a ≢ 4 * (at / 4))) }
    ensures leaves { LeavesBesides block.now.slot hand.old.view hand.new.view }
    ensures book { KeepsBook hand.old hand.new }
{
    // A block ends in the space, and so its cells are there.
    let _gap = block.gap();
    let addr = 4 * (at / 4);
    let word = space.load(hand, addr);
    let cell = without_byte((word % (1 << 32)) as u32, (at % 4) as u32);
    space.store_in(hand, block, addr, cell);
}
