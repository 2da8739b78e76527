// One thread serves a group by the lock's seat while another pops and pushes its slots by a hand.
ghost use Rattle.std.specs.Prelude.{◌≡◌, ◌∷◌, [], IfSome};
ghost use Rattle.ng_space.specs.Tests.{HasEntered};
ghost use Rattle.ng_space.specs.Tokens.{HasSlot};
ghost use Rattle.ng_space_tests.specs.Trials.{trial_start};
ghost use Rattle.ng_space_tests.specs.Race.{Serves};

use crate::page::{META, build_group, make_area, start};
use ng_mask::{Pop, Push, capture, pop, pop_core, push, stock, take};
use ng_meta::avail_word;
use ng_space::{Blank, Hand, LockSeat, Name, Slot, Space};
use std::alloc::Global;
use std::marker::Brand;
use std::process::Abort;
use std::test::Fail;
use std::thread::{Threads, join_mut};

const CLASS: u32 = 9;

/// The bits of the group's slots.
const ALL: u32 = 0xffff;

// So many that the threads meet, although one starts later.
const ROUNDS: u32 = 100_000;

// What a lock's holder does for callers that find no slot, and at times both masks change places.
fn serve<N: Name, R: Abort>(rt: &R, space: &Space<N>, seat: &mut LockSeat<N>)
    requires start { N.facts.start ≡ trial_start }
    requires serves { Serves seat.old }
    ensures serves { Serves seat.new }
{
    for round in 0..ROUNDS {
        if round % 16 == 0 {
            swap_masks(rt, space, seat);
        } else {
            serve_once(rt, space, seat);
        }
    }
}

// The lowest slot in avail goes to freed, or the slots of freed go to an empty avail.
fn serve_once<N: Name, R: Abort>(rt: &R, space: &Space<N>, seat: &mut LockSeat<N>)
    requires start { N.facts.start ≡ trial_start }
    requires serves { Serves seat.old }
    ensures serves { Serves seat.new }
{
    match pop_core(space, seat, META) {
        Some(index) => {
            let bit = 1 << index;
            let freed = space.push_parent(seat, META, bit);
            assert_eq!(rt; freed & bit, 0, "slot {index} was in freed");
        }
        None => {
            let taken = take(space, seat, META, 31);
            stock(space, seat, META, taken);
        }
    }
}

// The slots of the two masks change places.
fn swap_masks<N: Name, R: Abort>(rt: &R, space: &Space<N>, seat: &mut LockSeat<N>)
    requires start { N.facts.start ≡ trial_start }
    requires serves { Serves seat.old }
    ensures serves { Serves seat.new }
{
    let (avail, freed) = capture(space, seat, META);
    assert_eq!(rt; avail & freed, 0);
    stock(space, seat, META, freed);
    if avail != 0 {
        space.push_parent(seat, META, avail);
    }
}

// The hand pops slots and pushes them, and answers the slot that it still has.
fn trade<N: Name>(space: &Space<N>, hand: &mut Hand<N>) -> Option<Slot<N>>
    requires start { N.facts.start ≡ trial_start }
    ensures kept { IfSome result (HasSlot hand.new) }
    ensures hand { HasEntered hand.old hand.new }
{
    let mut kept = None;
    for round in 0..ROUNDS {
        kept = trade_once(space, hand, kept);
    }
    kept
}

// A slot that the hand has is pushed, and else one is popped.
fn trade_once<N: Name>(
    space: &Space<N>,
    hand: &mut Hand<N>,
    kept: Option<Slot<N>>,
) -> Option<Slot<N>>
    requires start { N.facts.start ≡ trial_start }
    requires kept { IfSome kept (HasSlot hand.old) }
    ensures kept { IfSome result (HasSlot hand.new) }
    ensures hand { HasEntered hand.old hand.new }
{
    match kept {
        Some(slot) => match push(space, hand, slot) {
            Push::Done => None,
            Push::Left(slot, _) => Some(slot),
        },
        None => match pop(space, hand, META, CLASS) {
            Pop::Won(slot) => Some(slot),
            Pop::Bare | Pop::Lost => None,
            Pop::Other { tag: _ } => None,
        },
    }
}

#[test]
fn two_threads_share_a_group(rt: HostRuntime) -> Result<(), Fail> {
    let alloc = rt.alloc();
    let blank = Blank::new(alloc, start(), &[0])?;
    race::<Brand, _>(&rt, alloc, blank)
}

fn race<N: Name + Send + Sync, R: Threads + Abort + Sync>(
    rt: &R,
    alloc: Global,
    blank: Blank,
) -> Result<(), Fail>
    requires table { blank.table ≡ N.facts.table }
    requires start { blank.start ≡ N.facts.start }
    requires trial { blank.start ≡ trial_start }
    requires rooms { blank.rooms ≡ 0 ∷ [] }
    requires hands { N.facts.hands ≡ 1 }
{
    let (space, mut lock, mut hands) = Space::<N>::open(alloc, blank)?;
    make_area(&space, &mut lock);
    build_group(&space, &mut lock, CLASS, 15, ALL);
    // A hand pushes no slot into a freed mask of 0.
    serve_once(rt, &space, &mut lock);
    let hand = &mut hands[0];
    let kept = run_both(rt, &space, &mut lock, hand);
    gather(rt, &space, &mut lock, hand, kept);
    let (image, _books) = space.close(lock, hands);
    assert_eq!(rt; image.word(META + 24), avail_word(CLASS, 0));
    assert_eq!(rt; image.word(META + 28), 0);
    Ok(())
}

fn run_both<N: Name + Send + Sync, R: Threads + Abort + Sync>(
    rt: &R,
    space: &Space<N>,
    seat: &mut LockSeat<N>,
    hand: &mut Hand<N>,
) -> Option<Slot<N>>
    requires start { N.facts.start ≡ trial_start }
    requires serves { Serves seat.old }
    ensures serves { Serves seat.new }
    ensures kept { IfSome result (HasSlot hand.new) }
    ensures hand { HasEntered hand.old hand.new }
{
    let ((), kept) = join_mut(
        rt,
        &mut || serve(rt, space, seat),
        &mut || trade(space, hand),
    );
    kept
}

// Each slot of the group is in one of its masks or was left to the hand.
fn gather<N: Name, R: Abort>(
    rt: &R,
    space: &Space<N>,
    seat: &mut LockSeat<N>,
    hand: &mut Hand<N>,
    kept: Option<Slot<N>>,
)
    requires start { N.facts.start ≡ trial_start }
    requires serves { Serves seat.old }
    requires kept { IfSome kept (HasSlot hand.old) }
    ensures serves { Serves seat.new }
    ensures hand { HasEntered hand.old hand.new }
{
    let held = take_back(space, seat, hand, kept);
    let (avail, freed) = capture(space, seat, META);
    assert_eq!(rt; avail | freed | held, ALL);
    assert_eq!(rt;
        avail.count_ones() + freed.count_ones() + held.count_ones(),
        16
    );
}

// The slot comes to the lock's seat, and its bit is the answer.
fn take_back<N: Name>(
    space: &Space<N>,
    seat: &mut LockSeat<N>,
    hand: &mut Hand<N>,
    kept: Option<Slot<N>>,
) -> u32
    requires serves { Serves seat.old }
    requires kept { IfSome kept (HasSlot hand.old) }
    ensures serves { Serves seat.new }
    ensures hand { HasEntered hand.old hand.new }
{
    let Some(slot) = kept else { return 0 };
    let bit = 1 << slot.index();
    space.slot_to_seat(hand, seat, slot);
    bit
}
