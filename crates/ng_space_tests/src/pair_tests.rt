// A group of two slots, whose life the lock's seat and a hand share, with a block in one of them.
ghost use Rattle.std.specs.Prelude.{◌≡◌, ◌≤◌, ◌∷◌, [], Some};
ghost use Rattle.ng_view.specs.Lists.{find};
ghost use Rattle.ng_view.specs.Steps.{in_motion};
ghost use Rattle.ng_view.specs.Groups.{HasAllSlots};
ghost use Rattle.ng_space.specs.Blocks.{OfSlot, Serves};
ghost use Rattle.ng_space.specs.Tests.{HasEntered};
ghost use Rattle.ng_space.specs.Tokens.{HasSlot, Token};
ghost use Rattle.ng_space_tests.specs.Trials.{AreMetasBlank, Stands, page_group, page_runs, trial_start};

use crate::page::{AREA, BASE, META, build_group, end_group, make_area, start};
use ng_mask::{Needs, Pop, Push, capture, pop, push};
use ng_space::{Blank, Hand, LockSeat, Name, Slot, Space};
use std::alloc::Global;
use std::marker::Brand;
use std::process::Abort;
use std::test::Fail;

const CLASS: u32 = 23;

/// The slot that the hand pops, and its end.
const SLOT: u64 = 0x2800;

const END: u64 = 0x2fec;

#[test]
fn a_group_lives_and_ends(rt: HostRuntime) -> Result<(), Fail> {
    let alloc = rt.alloc();
    let blank = Blank::new(alloc, start(), &[4])?;
    live_once::<Brand, _>(&rt, alloc, blank)
}

fn live_once<N: Name, R: Abort>(rt: &R, alloc: Global, blank: Blank) -> Result<(), Fail>
    requires table { blank.table ≡ N.facts.table }
    requires start { blank.start ≡ N.facts.start }
    requires trial { blank.start ≡ trial_start }
    requires rooms { blank.rooms ≡ 4 ∷ [] }
    requires hands { N.facts.hands ≡ 1 }
{
    let (space, mut lock, mut hands) = Space::<N>::open(alloc, blank)?;
    make_area(&space, &mut lock);
    build_group(&space, &mut lock, CLASS, 1, 1 << 1);
    let hand = &mut hands[0];
    pass_back(rt, &space, &mut lock, hand);
    end_group(&space, &mut lock);
    let (image, _books) = space.close(lock, hands);
    assert_eq!(rt; image.word(AREA), 0x89ab_cdef);
    for cell in 0..1024 {
        assert_eq!(rt; image.word(BASE + 4 * cell), 0, "cell {cell}");
    }
    Ok(())
}

// The hand pops the slot in the avail mask, has a block there, finds no other slot, fails to push the slot as the
// first, and passes it to the lock's seat, which finds both masks empty.
fn pass_back<N: Name, R: Abort>(
    rt: &R,
    space: &Space<N>,
    seat: &mut LockSeat<N>,
    hand: &mut Hand<N>,
)
    requires start { N.facts.start ≡ trial_start }
    requires stands { Stands seat.old page_runs (page_group 23 1 ∷ []) }
    requires metas { AreMetasBlank seat.old 1 }
    requires slot { find 4120 0 seat.old.held ≡ Some (in_motion (page_group 23 1) 0) }
    requires spare { 2 ≤ hand.old.spare }
    ensures stands { Stands seat.new page_runs (page_group 23 1 ∷ []) }
    ensures metas { AreMetasBlank seat.new 1 }
    ensures slots { HasAllSlots seat.new 4120 }
    ensures hand { HasEntered hand.old hand.new }
{
    let slot = match pop(space, hand, META, CLASS) {
        Pop::Won(slot) => slot,
        Pop::Bare | Pop::Other { tag: _ } | Pop::Lost => panic!(rt; "the slot isn't in the mask"),
    };
    assert_eq!(rt; slot.index(), 1);
    assert_eq!(rt; slot.start(), SLOT);
    assert_eq!(rt; slot.end(), END);
    assert_eq!(rt; slot.room(), END - SLOT + 4);
    let slot = use_slot(rt, space, hand, slot);
    assert_eq!(rt; hand.entries().len(), 2);
    find_bare(rt, space, hand);
    let slot = match push(space, hand, slot) {
        Push::Left(slot, needs) => {
            assert_eq!(rt; needs, Needs::First);
            slot
        }
        Push::Done => panic!(rt; "a slot came first into a freed mask"),
    };
    space.slot_to_seat(hand, seat, slot);
    assert_eq!(rt; capture(space, seat, META), (0, 0));
}

// A pop finds the avail mask 0, and changes no slot of the hand.
fn find_bare<N: Name, R: Abort>(rt: &R, space: &Space<N>, hand: &mut Hand<N>)
    requires start { N.facts.start ≡ trial_start }
    ensures slots { (slot : Token) → HasSlot hand.old slot → HasSlot hand.new slot }
    ensures hand { HasEntered hand.old hand.new }
{
    match pop(space, hand, META, CLASS) {
        Pop::Bare => {}
        Pop::Won(_slot) => panic!(rt; "the group has another slot"),
        Pop::Other { tag: _ } | Pop::Lost => panic!(rt; "the avail mask isn't that of the group"),
    }
}

// A block of all but 8 bytes of the slot is given, written in and ended. Its trailer says how many are
// left.
fn use_slot<N: Name, R: Abort>(
    rt: &R,
    space: &Space<N>,
    hand: &mut Hand<N>,
    slot: Slot<N>,
) -> Slot<N>
    requires slot { HasSlot hand.old slot }
    requires start { slot.start ≡ 10240 }
    requires end { slot.end ≡ 12268 }
    requires room { slot.room ≡ 2032 }
    requires serves { OfSlot hand.old slot (Serves 2020 16) }
    requires spare { 2 ≤ hand.old.spare }
    ensures slot { result ≡ slot }
    ensures has { HasSlot hand.new result }
    ensures hand { HasEntered hand.old hand.new }
{
    space.store_own(hand, &slot, END - 8, 0);
    space.store_own(hand, &slot, END - 4, 8);
    let block = space.give(hand, slot, SLOT, 2020, 16);
    assert_eq!(rt; block.at(), SLOT);
    assert_eq!(rt; block.gap() - block.len(), 8);
    space.store_in(hand, &block, SLOT, 0x1234_5678);
    assert_eq!(rt; space.load(hand, SLOT), 0x1234_5678);
    space.kill(hand, block)
}
