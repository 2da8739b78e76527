ghost use Rattle.std.specs.Prelude.{◌≡◌, ◌<◌, ℕ, List, length, IfSome, Option, Some};
ghost use Rattle.ng_heap.specs.Keeps.{KeepsFrames};
ghost use Rattle.ng_replay.specs.Serial.{AreApartFrom, AreHeld, IsNumberIn, IsVacant, KeepsBalance, handed_in, handed_with, handed_without, places_of, row_without, source_with, staying};
ghost use Rattle.ng_replay.specs.Serving.{at_of};
ghost use Rattle.ng_space.specs.Blocks.{BlockToken, HasFramed};
ghost use Rattle.ng_terms.specs.Calls.{handed_as, origin_of};
ghost use Rattle.ng_terms.specs.declared.plan.Origin.TheVariants.{Own, Claim};

use ng_heap::{Heap, Parcel};
use ng_space::{Block, Hand, Name};
use ng_terms::{Op, Origin};
use std::mem::replace;

/// Takes the block that an op takes: out of its log's row, or in from the blocks that were handed off.
pub fn take_source<N: Name>(
    heap: &Heap<N>,
    hand: &mut Hand<N>,
    op: &Op,
    row: &mut [Option<Block<N>>],
    parcels: &mut [Option<Parcel<N>>],
) -> Option<Block<N>>
    requires earlier { (maker : ℕ) → origin_of op.now ≡ Own maker → maker < length row.old }
    requires numbered { (number : ℕ) → origin_of op.now ≡ Claim number → IsNumberIn parcels.old number }
    requires held { AreHeld hand.old row.old }
    ensures at { at_of result ≡ source_with (places_of row.old) (handed_in parcels.old) (origin_of op.now) }
    ensures row { row.new ≡ row_without (origin_of op.now) row.old }
    ensures parcels { parcels.new ≡ handed_without (origin_of op.now) parcels.old }
    ensures framed { IfSome result (HasFramed hand.new) }
    ensures apart { AreApartFrom result row.new }
    ensures held { AreHeld hand.new row.new }

    ensures balance { KeepsBalance hand.old hand.new parcels.old parcels.new }
    ensures frames { KeepsFrames hand.old hand.new }
    ensures spare { hand.new.spare ≡ hand.old.spare }
    ensures entries { hand.new.entries ≡ hand.old.entries }
{
    match origin(op) {
        Origin::Own(maker) => row[maker as usize].take(),
        Origin::Claim(number) => match parcels[number as usize - 1].take() {
            Some(parcel) => Some(heap.receive(hand, parcel)),
            None => None,
        },
        Origin::Skip => None,
    }
}

/// Sends the block that stands for an op off, if it is to be. The block comes back where it stays with
/// the log.
pub fn hand_off<N: Name>(
    heap: &Heap<N>,
    hand: &mut Hand<N>,
    op: &Op,
    block: Option<Block<N>>,
    parcels: &mut [Option<Parcel<N>>],
) -> Option<Block<N>>
    requires numbered { (number : ℕ) → handed_as op.now ≡ Some number → IsNumberIn parcels.old number }
    requires vacant { IsVacant (handed_as op.now) parcels.old }
    requires framed { IfSome block (HasFramed hand.old) }
    ensures stays { result ≡ staying (handed_as op.now) block }
    ensures handed { handed_in parcels.new ≡ handed_with (handed_as op.now) (at_of block) (handed_in parcels.old) }
    ensures held { (row : List (Option BlockToken)) → AreApartFrom block row → AreHeld hand.old row → AreHeld hand.new row }
    ensures framed { IfSome result (HasFramed hand.new) }

    ensures balance { KeepsBalance hand.old hand.new parcels.old parcels.new }
    ensures frames { KeepsFrames hand.old hand.new }
    ensures spare { hand.new.spare ≡ hand.old.spare }
    ensures entries { hand.new.entries ≡ hand.old.entries }
{
    let Some(number) = handed_number(op) else {
        return block;
    };
    let Some(block) = block else {
        return None;
    };
    let parcel = heap.send(hand, block);
    match replace(&mut parcels[number as usize - 1], Some(parcel)) {
        None => None,
        Some(_) => unreachable!(),
    }
}

/// Where an op's block comes from.
pub(crate) fn origin(op: &Op) -> Origin
    ensures { result ≡ origin_of op.now }
{
    match *op {
        Op::Make {
            name: _,
            size: _,
            to: _,
        } => Origin::Skip,
        Op::Free { name: _, from } => from,
        Op::Move {
            old: _,
            name: _,
            from,
            size: _,
            to: _,
        } => from,
    }
}

/// The number under which an op hands its block off.
pub(crate) fn handed_number(op: &Op) -> Option<u64>
    ensures { result ≡ handed_as op.now }
{
    match *op {
        Op::Make {
            name: _,
            size: _,
            to,
        } => to,
        Op::Free { name: _, from: _ } => None,
        Op::Move {
            old: _,
            name: _,
            from: _,
            size: _,
            to,
        } => to,
    }
}
