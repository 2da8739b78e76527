// Slots and excuses between the lock's seat and a hand. The hand comes whole into the lock's seat, and
// goes out of it again with what is passed.
ghost use Rattle.std.specs.Prelude.{◌≡◌, ◌+◌, ◌≤◌, ◌++◌, ◌∷◌, []};
ghost use Rattle.ng_meta.specs.Place.{IsMetaPlace};
ghost use Rattle.ng_terms.specs.declared.entry.Entry.TheVariants.{NoMemory};
ghost use Rattle.ng_view.specs.Cuts.{Cut, Merge};
ghost use Rattle.ng_view.specs.Lists.{find};
ghost use Rattle.ng_view.specs.Steps.{excuse_at, pushed, spent, unexcused, with_excuse};
ghost use Rattle.ng_space.specs.Leaving.{Leaves};
ghost use Rattle.ng_space.specs.Masks.{Looks};
ghost use Rattle.ng_space.specs.Passed.{EntersNoMemory, HasExcuse, HasInMotion, HasNumber, with_slot};
ghost use Rattle.ng_space.specs.Placed.{AreOnce};
ghost use Rattle.ng_space.specs.Tokens.{HasSlot};

use crate::excuse::Excuse;
use crate::hand::Hand;
use crate::lock::LockSeat;
use crate::name::Name;
use crate::rule::Passing;
use crate::slot::Slot;
use crate::space::Space;
use atomic_table::Seat;
use ng_history::Entry;
use ng_view::view::View;
use std::marker::{Brand, PhantomData};
use std::mem;

impl<N: Name> Space<N> {
    /// Passes a slot from the lock's seat, where it is in motion, to a hand.
    pub fn slot_to_hand(
        &self,
        seat: &mut LockSeat<N>,
        hand: &mut Hand<N>,
        meta: u64,
        index: u32,
    ) -> Slot<N>
        requires slot { HasInMotion seat.old meta index }
        ensures seat { seat.new ≡ pushed seat.old meta index }
        ensures view { Looks (with_slot hand.old.view (find meta index seat.old.held)) meta hand.new.view }
        ensures leaves { Leaves result hand.old.view hand.new.view }
        ensures meta { result.meta ≡ meta }
        ensures index { result.index ≡ index }
        ensures slot { HasSlot hand.new result }
        ensures once { AreOnce hand.new.view }
        ensures number { hand.new.number ≡ hand.old.number }
        ensures spare { hand.new.spare ≡ hand.old.spare }
        ensures entries { hand.new.entries ≡ hand.old.entries }
    {
        self.pass_slot::<Brand>(&mut seat.seat, &mut hand.seat, meta, index);
        self.slot_at(hand, meta, index)
    }

    /// Passes a slot from a hand to the lock's seat, where it is in motion.
    pub fn slot_to_seat(&self, hand: &mut Hand<N>, seat: &mut LockSeat<N>, slot: Slot<N>)
        requires slot { HasSlot hand.old slot }
        ensures seat { seat.new ≡ with_slot seat.old (find slot.meta slot.index hand.old.view.held) }
        ensures view { hand.new.view ≡ pushed hand.old.view slot.meta slot.index }
        ensures leaves { Leaves slot hand.old.view hand.new.view }
        ensures number { hand.new.number ≡ hand.old.number }
        ensures spare { hand.new.spare ≡ hand.old.spare }
        ensures entries { hand.new.entries ≡ hand.old.entries }
    {
        let Slot {
            meta,
            index,
            storage: _,
            start: _,
            end: _,
            room: _,
            hand: _,
            of: _,
        } = slot;
        self.pass_slot::<Brand>(&mut seat.seat, &mut hand.seat, meta, index)
    }

    /// Passes the excuse of a refused map call from the lock's seat to a hand.
    pub fn excuse_to_hand(
        &self,
        seat: &mut LockSeat<N>,
        hand: &mut Hand<N>,
        number: u64,
    ) -> Excuse<N>
        requires excuse { HasNumber seat.old number }
        ensures seat { seat.new ≡ unexcused seat.old number }
        ensures view { hand.new.view ≡ with_excuse hand.old.view (excuse_at number seat.old.excuses) }
        ensures excuse { result.number ≡ number }
        ensures has { HasExcuse hand.new result }
        ensures number { hand.new.number ≡ hand.old.number }
        ensures spare { hand.new.spare ≡ hand.old.spare }
        ensures entries { hand.new.entries ≡ hand.old.entries }
    {
        self.pass_excuse::<Brand>(&mut seat.seat, &mut hand.seat, number);
        Excuse {
            number,
            hand: hand.book.number(),
            of: PhantomData,
        }
    }

    // What `C` picks passes, with the number of an excuse.
    fn pass_excuse<C: Passing>(
        &self,
        lock: &mut Seat<(), View>,
        own: &mut Seat<(), View>,
        _number: u64,
    )
        requires lock { lock.old.table_id ≡ N.facts.table }
        requires own { (own.old.table_id ≡ N.facts.table) × (own.old.me.1 ≡ []) }
        requires merge { Merge lock.old.me.0 own.old.me.0 C.both spent }
        requires cut { Cut C.both C.left C.right }
        ensures lock { lock.new.me ≡ (C.left, lock.old.me.1) }
        ensures own { own.new.me ≡ (C.right, []) }
        ensures tables { (lock.new.table_id ≡ lock.old.table_id) × (own.new.table_id ≡ own.old.table_id) }
    {
        self.pass_slot::<C>(lock, own, 0, 0)
    }

    // What `C` picks passes, with the meta and the index of a slot. Another seat stands in for the
    // hand's while it is in the lock's.
    fn pass_slot<C: Passing>(
        &self,
        lock: &mut Seat<(), View>,
        own: &mut Seat<(), View>,
        _meta: u64,
        _index: u32,
    )
        requires lock { lock.old.table_id ≡ N.facts.table }
        requires own { (own.old.table_id ≡ N.facts.table) × (own.old.me.1 ≡ []) }
        requires merge { Merge lock.old.me.0 own.old.me.0 C.both spent }
        requires cut { Cut C.both C.left C.right }
        ensures lock { lock.new.me ≡ (C.left, lock.old.me.1) }
        ensures own { own.new.me ≡ (C.right, []) }
        ensures tables { (lock.new.table_id ≡ lock.old.table_id) × (own.new.table_id ≡ own.old.table_id) }
    {
        let stand_in = self.split_off::<Brand>(lock);
        let whole = mem::replace(own, stand_in);
        self.take_in::<C>(lock, whole);
        *own = self.split_off::<C>(lock);
    }

    /// Enters a request as out of memory, with an excuse of the hand, which goes. It loads word 0.
    pub fn enter_no_memory(&self, hand: &mut Hand<N>, n: u64, excuse: Excuse<N>)
        requires spare { 1 ≤ hand.old.spare }
        requires excuse { HasExcuse hand.old excuse }
        ensures entries { hand.new.entries ≡ hand.old.entries ++ NoMemory n excuse.number ∷ [] }
        ensures view { EntersNoMemory hand.old.view hand.old.number n excuse.number hand.new.view }
        ensures spare { hand.new.spare + 1 ≡ hand.old.spare }
        ensures number { hand.new.number ≡ hand.old.number }
    {
        let Excuse {
            number: excuse,
            hand: _,
            of: _,
        } = excuse;
        let entry = Entry::NoMemory { n, excuse };
        let number = hand.book.number();
        self.enter_told::<Brand>(&mut hand.seat, number, &entry);
        hand.book.push(entry);
    }
}
