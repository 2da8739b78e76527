// The single exchanges on masks, and stores in own slots.
ghost use Rattle.std.specs.Prelude.{◌≡◌, ◌≢◌, ◌*◌, ◌/◌, ◌%◌, ◌<◌, ◌≤◌, ◌+◌, ◌^◌, IfErr, IfOk, OnOk};
ghost use Rattle.ng_meta.specs.Place.{IsMetaPlace};
ghost use Rattle.ng_view.specs.Steps.{pushed, read, stored};
ghost use Rattle.ng_space.specs.Leaving.{Leaves, LeavesAll};
ghost use Rattle.ng_space.specs.Masks.{HasFree, Looks, Pops};
ghost use Rattle.ng_space.specs.Placed.{AreOnce};
ghost use Rattle.ng_space.specs.Tokens.{HasSlot};

use crate::hand::Hand;
use crate::name::Name;
use crate::slot::Slot;
use crate::space::Space;
use ng_meta::{AVAIL, FLAGS, FREED, MEM, mask_of};
use std::marker::Brand;

impl<N: Name> Space<N> {
    /// Stores a number in one of the slot's own cells. In the cell before the slot's start, which is
    /// a header, its low byte is 0.
    pub fn store_own(&self, hand: &mut Hand<N>, slot: &Slot<N>, addr: u64, value: u32)
        requires slot { HasSlot hand.old slot.now }
        requires cell { addr % 4 ≡ 0 }
        requires from { slot.now.start ≤ addr + 4 }
        requires below { addr < slot.now.end }
        requires header { addr + 4 ≡ slot.now.start → value % 256 ≡ 0 }
        ensures view { hand.new.view ≡ stored hand.old.view slot.now.meta slot.now.index addr value }
        ensures slot { HasSlot hand.new slot.now }
        ensures leaves { Leaves slot.now hand.old.view hand.new.view }
        ensures number { hand.new.number ≡ hand.old.number }
        ensures spare { hand.new.spare ≡ hand.old.spare }
        ensures entries { hand.new.entries ≡ hand.old.entries }
    {
        let value = u64::from(value);
        self.store_told::<Brand>(&mut hand.seat, addr, value, slot.meta, slot.index)
    }

    /// Clears the lowest set bit of a meta's avail mask, where its avail word is still as it was
    /// seen, and the slot of that bit is in the hand. Where the word isn't, it comes back.
    pub fn pop_step(&self, hand: &mut Hand<N>, meta: u64, seen: u64) -> Result<Slot<N>, u64>
        requires place { IsMetaPlace meta N.facts.start.pages }
        requires tag { 0 < seen / 2 ^ 32 }
        requires mask { 0 < seen % 2 ^ 32 }
        ensures meta { IfOk result (λ slot. slot.meta ≡ meta) }
        ensures ok { IfOk result (λ slot. Pops hand.old.view meta seen slot.index hand.new.view) }
        ensures slot { IfOk result (HasSlot hand.new) }
        ensures once { OnOk result (AreOnce hand.new.view) }
        ensures found { IfErr result (λ found. found ≢ seen) }
        ensures err { IfErr result (λ found. hand.new.view ≡ read hand.old.view (meta + 24) found) }
        ensures leaves { IfOk result (λ slot. Leaves slot hand.old.view hand.new.view) }
        ensures stays { IfErr result (λ found. LeavesAll hand.old.view hand.new.view) }
        ensures number { hand.new.number ≡ hand.old.number }
        ensures spare { hand.new.spare ≡ hand.old.spare }
        ensures entries { hand.new.entries ≡ hand.old.entries }
    {
        let mask = mask_of(seen);
        let index = mask.trailing_zeros();
        let new = seen & !(1u64 << index);
        let addr = meta + AVAIL;
        let found = self.exchange_told::<Brand>(&mut hand.seat, addr, seen, new, meta, index);
        if found == seen {
            Ok(self.slot_at(hand, meta, index))
        } else {
            Err(found)
        }
    }

    // The slot, once its meta's mem and flags are loaded.
    pub(crate) fn slot_at(&self, hand: &mut Hand<N>, meta: u64, index: u32) -> Slot<N>
        requires place { IsMetaPlace meta N.facts.start.pages }
        requires free { HasFree hand.old.view meta index }
        ensures view { Looks hand.old.view meta hand.new.view }
        ensures meta { result.meta ≡ meta }
        ensures index { result.index ≡ index }
        ensures slot { HasSlot hand.new result }
        ensures once { AreOnce hand.new.view }
        ensures number { hand.new.number ≡ hand.old.number }
        ensures spare { hand.new.spare ≡ hand.old.spare }
        ensures entries { hand.new.entries ≡ hand.old.entries }
    {
        let base = self.load(hand, meta + MEM);
        let flags = self.load(hand, meta + FLAGS);
        let number = hand.number();
        Slot::new(meta, index, base, flags as u32, number)
    }

    /// Sets the slot's bit in its group's freed mask, where the mask is still as it was seen. The
    /// word found comes back with the slot where it isn't.
    pub fn push_step(
        &self,
        hand: &mut Hand<N>,
        slot: Slot<N>,
        seen: u32,
    ) -> Result<(), (Slot<N>, u32)>
        requires slot { HasSlot hand.old slot }
        requires seen { 0 < seen }
        ensures ok { IfOk result (λ done.
            hand.new.view ≡ read (pushed hand.old.view slot.meta slot.index) (slot.meta + 28) seen) }
        ensures slot { IfErr result (λ left. left.0 ≡ slot) }
        ensures found { IfErr result (λ left. left.1 ≢ seen) }
        ensures held { IfErr result (λ left. HasSlot hand.new left.0) }
        ensures err { IfErr result (λ left. hand.new.view ≡ read hand.old.view (slot.meta + 28) left.1) }
        ensures leaves { IfOk result (λ done. Leaves slot hand.old.view hand.new.view) }
        ensures stays { IfErr result (λ left. LeavesAll hand.old.view hand.new.view) }
        ensures number { hand.new.number ≡ hand.old.number }
        ensures spare { hand.new.spare ≡ hand.old.spare }
        ensures entries { hand.new.entries ≡ hand.old.entries }
    {
        let old = u64::from(seen);
        let new = old | (1u64 << slot.index);
        let addr = slot.meta + FREED;
        let found = self.exchange_told::<Brand>(
            &mut hand.seat,
            addr,
            old,
            new,
            slot.meta,
            slot.index,
        );
        if found == old {
            let Slot {
                meta: _,
                index: _,
                storage: _,
                start: _,
                end: _,
                room: _,
                hand: _,
                of: _,
            } = slot;
            Ok(())
        } else {
            Err((slot, found as u32))
        }
    }
}
