// What stands between a block's last byte and the end of its slot.
ghost use Rattle.std.specs.Prelude.{◌≡◌, ◌≢◌, ℕ, ◌+◌, ◌*◌, ◌/◌, ◌%◌, ◌^◌, ◌<◌, ◌≤◌};
ghost use Rattle.ng_header.specs.Bytes.{byte_of};
ghost use Rattle.ng_view.specs.Frame.{IsTrailer, KnowsByte};
ghost use Rattle.ng_space.specs.Blocks.{OfSlot};
ghost use Rattle.ng_space.specs.Tokens.{HasSlot};
ghost use Rattle.ng_space.specs.Leaving.{KeepsBook, KeepsCells, Leaves, Stays};
ghost use Rattle.ng_frame.specs.Puts.{IsWhole};

use ng_space::{Hand, Name, Slot, Space};

// Stores the trailer of so many bytes before the slot's end: the first of them is 0, and from 5 on
// the last four are their number and the byte before it is 0.
pub(crate) fn store_trailer<N: Name>(
    space: &Space<N>,
    hand: &mut Hand<N>,
    slot: &Slot<N>,
    reserved: u64,
)
    requires slot { HasSlot hand.old slot.now }
    requires whole { IsWhole slot.now }
    requires within { slot.now.start + reserved ≤ slot.now.end }
    ensures trailer { OfSlot hand.new slot.now (λ h. IsTrailer h reserved) }
    ensures slot { HasSlot hand.new slot.now }
    ensures own { Stays slot.now.meta slot.now.index hand.old.view hand.new.view (KeepsCells (λ a. a < slot.now.start)) }
    ensures leaves { Leaves slot.now hand.old.view hand.new.view }
    ensures book { KeepsBook hand.old hand.new }
{
    if reserved == 0 {
        return;
    }
    let end = slot.end();
    clear_byte(space, hand, slot, end - reserved);
    if reserved >= 5 {
        space.store_own(hand, slot, end - 4, reserved as u32);
        clear_byte(space, hand, slot, end - 5);
    }
}

// Makes one byte of the slot 0.
fn clear_byte<N: Name>(space: &Space<N>, hand: &mut Hand<N>, slot: &Slot<N>, at: u64)
    requires slot { HasSlot hand.old slot.now }
    requires whole { IsWhole slot.now }
    requires from { slot.now.start ≤ at }
    requires below { at < slot.now.end }
    ensures zero { OfSlot hand.new slot.now (KnowsByte at 0) }
    ensures zeros { (y : ℕ) → OfSlot hand.old slot.now (KnowsByte y 0) → OfSlot hand.new slot.now (KnowsByte y 0) }
    ensures slot { HasSlot hand.new slot.now }
    ensures own { Stays slot.now.meta slot.now.index hand.old.view hand.new.view (KeepsCells (λ a. a ≢ 4 * (at / 4))) }
    ensures leaves { Leaves slot.now hand.old.view hand.new.view }
    ensures book { KeepsBook hand.old hand.new }
{
    // A slot ends in the space, and so its cells are there.
    let _end = slot.end();
    let addr = 4 * (at / 4);
    let word = space.load(hand, addr);
    let cell = without_byte((word % (1 << 32)) as u32, (at % 4) as u32);
    space.store_own(hand, slot, addr, cell);
}

// The cell with 0 in one of its four bytes.
pub(crate) fn without_byte(cell: u32, place: u32) -> u32
    requires place { place < 4 }
    ensures zero { byte_of result place ≡ 0 }
    ensures others { (b : ℕ) → b < 4 → b ≢ place → byte_of result b ≡ byte_of cell b }
{
    let unit = 1u32 << (8 * place);
    cell - cell / unit % 256 * unit
}
