ghost use Rattle.std.specs.Prelude.{◌≡◌, []};
ghost use Rattle.ng_view.specs.Cuts.{Cut};
ghost use Rattle.ng_view.specs.Lists.{find};
ghost use Rattle.ng_view.specs.Steps.{split_off, taken_in};
ghost use Rattle.ng_space.specs.Blocks.{HasFramed};
ghost use Rattle.ng_space.specs.Packed.{IsPacked};
ghost use Rattle.ng_space.specs.Parcels.{IsOfOneSlot, sent_with, taken_by};

use crate::block::Block;
use crate::hand::Hand;
use crate::name::Name;
use crate::rule::Passing;
use crate::slot::Slot;
use crate::space::Space;
use atomic_table::Seat;
use ng_view::view::View;
use std::marker::{Brand, Model};

/// A live block on its way, with a seat of its own, which knows the block's frame.
pub struct Parcel<N: Name> {
    seat: Seat<(), View>,
    block: Block<N>,
}

impl<N: Name> Model for Parcel<N> {
    ghost use Rattle.ng_space.specs.Parcels.{ParcelToken};

    ghost Value = { ParcelToken };

    ghost use Rattle.ng_space.specs.Packed.{IsPacked};

    ghost view = { λ parcel. record { view = parcel.seat.me.0; block = parcel.block } };

    ghost invariant = { λ parcel. IsPacked N.facts.table parcel.seat parcel.block };
}

impl<N: Name> Drop for Parcel<N> {
    /// The block stays live with nobody.
    fn drop(self) {
        let Parcel { seat: _, block } = self;
        let Block {
            slot,
            at: _,
            len: _,
            align: _,
        } = block;
        slot.leave();
    }
}

impl<N: Name> Parcel<N> {
    /// The block's address.
    pub fn at(&self) -> u64
        ensures { result ≡ self.now.block.at }
    {
        self.block.at()
    }

    // Its seat and its block.
    fn into_parts(self) -> (Seat<(), View>, Block<N>)
        ensures view { result.0.me.0 ≡ self.view }
        ensures block { result.1 ≡ self.block }
        ensures packed { IsPacked N.facts.table result.0 result.1 }
    {
        let Parcel { seat, block } = self;
        (seat, block)
    }
}

impl<N: Name> Space<N> {
    /// Sends a block off, which the hand knows to be framed.
    pub fn split_parcel(&self, hand: &mut Hand<N>, block: Block<N>) -> Parcel<N>
        requires block { HasFramed hand.old block }
        ensures block { result.block ≡ block }
        ensures sent { result.view ≡ sent_with (find block.slot.meta block.slot.index hand.old.view.held) }
        ensures view { hand.new.view ≡ split_off hand.old.view block.slot.meta block.slot.index }
        ensures number { hand.new.number ≡ hand.old.number }
        ensures spare { hand.new.spare ≡ hand.old.spare }
        ensures entries { hand.new.entries ≡ hand.old.entries }
    {
        let meta = block.meta();
        let index = block.index();
        let seat = self.send::<Brand>(&mut hand.seat, meta, index);
        Parcel { seat, block }
    }

    /// Takes a block in. The hand knows it to be framed.
    pub fn join_parcel(&self, hand: &mut Hand<N>, parcel: Parcel<N>) -> Block<N>
        ensures block { result ≡ taken_by parcel.block hand.old.number }
        ensures has { HasFramed hand.new result }
        ensures one { IsOfOneSlot parcel }
        ensures view { hand.new.view ≡ taken_in hand.old.view parcel.view }
        ensures number { hand.new.number ≡ hand.old.number }
        ensures spare { hand.new.spare ≡ hand.old.spare }
        ensures entries { hand.new.entries ≡ hand.old.entries }
    {
        let number = hand.book.number();
        let (seat, block) = parcel.into_parts();
        self.take_in::<Brand>(&mut hand.seat, seat);
        let Block {
            slot,
            at,
            len,
            align,
        } = block;
        Block {
            slot: slot.in_hand(number),
            at,
            len,
            align,
        }
    }

    // The slot of that meta and index goes into a seat of its own, as `C` picks.
    fn send<C: Passing>(&self, seat: &mut Seat<(), View>, _meta: u64, _index: u32) -> Seat<(), View>
        requires fits { seat.old.table_id ≡ N.facts.table }
        requires cut { Cut seat.old.me.0 C.left C.right }
        ensures left { seat.new.me ≡ (C.left, seat.old.me.1) }
        ensures right { result.me ≡ (C.right, []) }
        ensures table { seat.new.table_id ≡ seat.old.table_id }
        ensures own { result.table_id ≡ seat.old.table_id }
    {
        self.split_off::<C>(seat)
    }
}
