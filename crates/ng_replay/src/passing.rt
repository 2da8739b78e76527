// A block of a log's op, in from its box or off to another.
ghost use Rattle.std.specs.Prelude.{◌≡◌, ◌+◌, ◌++◌, ◌<◌, ℕ, IfSome, List, Option, Some, length, vec_capacity, vec_len};
ghost use Rattle.ng_heap.specs.Keeps.{KeepsFrames};
ghost use Rattle.ng_post.specs.Doors.{IsDoorOf, IsNumber};
ghost use Rattle.ng_replay.specs.Serial.{AreApartFrom, AreHeld, places_of, row_without, staying};
ghost use Rattle.ng_replay.specs.Serving.{at_of};
ghost use Rattle.ng_replay.specs.Works.{Collects, blocks_among, posted_for};
ghost use Rattle.ng_space.specs.Blocks.{BlockToken, HasFramed};
ghost use Rattle.ng_terms.specs.Calls.{handed_as, origin_of};
ghost use Rattle.ng_terms.specs.declared.plan.Origin.TheVariants.{Own};

use crate::source::{handed_number, origin};
use ng_heap::Heap;
use ng_post::{Boxes, Door, Mail};
use ng_space::{Block, Hand, Name};
use ng_terms::{Op, Origin};
use std::sync::Wait;

/// Takes the block that an op takes: out of its log's row, or in from the log's box, where it waits for it.
pub fn take_source<N: Name, R: Wait>(
    rt: &R,
    heap: &Heap<N>,
    boxes: &Boxes<N>,
    hand: &mut Hand<N>,
    door: &mut Door<N>,
    op: &Op,
    row: &mut [Option<Block<N>>],
) -> Option<Block<N>>
    requires earlier { (maker : ℕ) → origin_of op.now ≡ Own maker → maker < length row.old }
    requires held { AreHeld hand.old row.old }
    requires door { IsDoorOf boxes.now door.old }
    requires room { vec_len door.old.got < vec_capacity door.old.got }
    ensures collects { Collects door.old door.new hand.old hand.new (places_of row.old) (origin_of op.now) (at_of result) }
    ensures row { row.new ≡ row_without (origin_of op.now) row.old }
    ensures framed { IfSome result (HasFramed hand.new) }
    ensures apart { AreApartFrom result row.new }
    ensures held { AreHeld hand.new row.new }

    ensures door { IsDoorOf boxes.now door.new }
    ensures log { door.new.log ≡ door.old.log }
    ensures sent { door.new.sent ≡ door.old.sent }
    ensures room { vec_capacity door.new.got ≡ vec_capacity door.old.got }
    ensures frames { KeepsFrames hand.old hand.new }
    ensures spare { hand.new.spare ≡ hand.old.spare }
    ensures entries { hand.new.entries ≡ hand.old.entries }
{
    match origin(op) {
        Origin::Own(maker) => row[maker as usize].take(),
        Origin::Claim(number) => match boxes.collect(rt, door, number) {
            Mail::Sent(parcel) => Some(heap.receive(hand, parcel)),
            Mail::Nothing => None,
        },
        Origin::Skip => None,
    }
}

/// Posts the block that stands for an op, or nothing, if the plan hands it off. The block comes back
/// where it stays with the log.
pub fn hand_off<N: Name, R: Wait>(
    rt: &R,
    heap: &Heap<N>,
    boxes: &Boxes<N>,
    hand: &mut Hand<N>,
    door: &mut Door<N>,
    op: &Op,
    block: Option<Block<N>>,
) -> Option<Block<N>>
    requires numbered { (number : ℕ) → handed_as op.now ≡ Some number → IsNumber boxes.now.receivers.items number }
    requires framed { IfSome block (HasFramed hand.old) }
    requires door { IsDoorOf boxes.now door.old }
    requires room { vec_len door.old.sent < vec_capacity door.old.sent }
    ensures stays { result ≡ staying (handed_as op.now) block }
    ensures posts { door.new.sent.items ≡ door.old.sent.items ++ posted_for (handed_as op.now) (at_of block) }
    ensures counted { hand.new.view.sent ≡ hand.old.view.sent + blocks_among (posted_for (handed_as op.now) (at_of block)) }
    ensures taken { hand.new.view.taken ≡ hand.old.view.taken }
    ensures held { (row : List (Option BlockToken)) → AreApartFrom block row → AreHeld hand.old row → AreHeld hand.new row }
    ensures framed { IfSome result (HasFramed hand.new) }

    ensures door { IsDoorOf boxes.now door.new }
    ensures log { door.new.log ≡ door.old.log }
    ensures got { door.new.got ≡ door.old.got }
    ensures room { vec_capacity door.new.sent ≡ vec_capacity door.old.sent }
    ensures frames { KeepsFrames hand.old hand.new }
    ensures spare { hand.new.spare ≡ hand.old.spare }
    ensures entries { hand.new.entries ≡ hand.old.entries }
{
    let Some(number) = handed_number(op) else {
        return block;
    };
    let Some(block) = block else {
        boxes.post(rt, door, number, Mail::Nothing);
        return None;
    };
    let parcel = heap.send(hand, block);
    boxes.post(rt, door, number, Mail::Sent(parcel));
    None
}
