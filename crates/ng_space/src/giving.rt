// Blocks come and go in a hand's slots: one store of the header cell, with an entry in the hand's book.
ghost use Rattle.std.specs.Prelude.{◌≡◌, ◌≢◌, ℕ, ◌+◌, ◌-◌, ◌*◌, ◌/◌, ◌%◌, ◌<◌, ◌≤◌, ◌++◌, ◌∷◌, [], max};
ghost use Rattle.ng_terms.specs.Heap.{IsAlignment};
ghost use Rattle.ng_terms.specs.declared.entry.Entry.TheVariants.{Give, Resize, Take};
ghost use Rattle.ng_view.specs.May.{May};
ghost use Rattle.ng_view.specs.Steps.{given, regiven, stored};
ghost use Rattle.ng_space.specs.Blocks.{BlockToken, HasBlock, HasFramed, IsReady, Kills, OfSlot, Serves, header_at};
ghost use Rattle.ng_space.specs.Leaving.{KeepsOthers, KeepsRest, Leaves};
ghost use Rattle.ng_space.specs.Tokens.{HasSlot, IsToken};

use crate::block::Block;
use crate::hand::Hand;
use crate::name::Name;
use crate::rule::Telling;
use crate::slot::Slot;
use crate::space::Space;
use atomic_table::Seat;
use ng_header::{Ib, cell_of};
use ng_history::Entry;
use ng_view::view::View;
use std::marker::Brand;

// The header cell is so many bytes in front of a block.
const HEADER: u64 = 4;

impl<N: Name> Space<N> {
    /// Makes a slot a live block of n bytes at an address, a multiple of the align and of 16. The hand
    /// knows the slot's cells to be the block's frame, but for the header cell, which is stored.
    pub fn give(&self, hand: &mut Hand<N>, slot: Slot<N>, at: u64, n: u64, align: u64) -> Block<N>
        requires spare { 1 ≤ hand.old.spare }
        requires slot { HasSlot hand.old slot }
        requires alignment { IsAlignment align }
        requires aligned { at % max align 16 ≡ 0 }
        requires serves { OfSlot hand.old slot (Serves n align) }
        requires ready { OfSlot hand.old slot (IsReady slot at n) }
        ensures block { result ≡ record { slot = slot; at = at; len = n; align = align } }
        ensures has { HasFramed hand.new result }
        ensures apart { (other : BlockToken) → HasBlock hand.old other → other.at ≢ at }
        ensures view { hand.new.view ≡ given hand.old.view slot.meta slot.index at n align hand.old.number (header_at slot at n) }
        ensures leaves { Leaves slot hand.old.view hand.new.view }
        ensures entries { hand.new.entries ≡ hand.old.entries ++ Give n align at ∷ [] }
        ensures spare { hand.new.spare + 1 ≡ hand.old.spare }
        ensures number { hand.new.number ≡ hand.old.number }
    {
        let header = slot.header(at, n);
        let entry = Entry::Give { n, align, at };
        let number = hand.book.number();
        self.header_told::<Brand>(&mut hand.seat, at, header, &slot, number, &entry);
        hand.book.push(entry);
        Block {
            slot,
            at,
            len: n,
            align,
        }
    }

    /// Gives a block another length, where it stands. The hand knows the slot's cells to be the frame
    /// of that length, but for the header cell, which is stored. The align is the common one then.
    pub fn regive(&self, hand: &mut Hand<N>, block: Block<N>, n: u64) -> Block<N>
        requires spare { 1 ≤ hand.old.spare }
        requires block { HasBlock hand.old block }
        requires serves { OfSlot hand.old block.slot (Serves n 16) }
        requires ready { OfSlot hand.old block.slot (IsReady block.slot block.at n) }
        ensures block { result ≡ record { slot = block.slot; at = block.at; len = n; align = 16 } }
        ensures has { HasFramed hand.new result }
        ensures view { hand.new.view ≡ regiven hand.old.view block.slot.meta block.slot.index block.at n hand.old.number (header_at block.slot block.at n) }
        ensures leaves { Leaves block.slot hand.old.view hand.new.view }
        ensures entries { hand.new.entries ≡ hand.old.entries ++ Resize block.at n ∷ [] }
        ensures spare { hand.new.spare + 1 ≡ hand.old.spare }
        ensures number { hand.new.number ≡ hand.old.number }
    {
        let Block {
            slot,
            at,
            len: _,
            align: _,
        } = block;
        let header = slot.header(at, n);
        let entry = Entry::Resize { at, n };
        let number = hand.book.number();
        self.header_told::<Brand>(&mut hand.seat, at, header, &slot, number, &entry);
        hand.book.push(entry);
        Block {
            slot,
            at,
            len: n,
            align: 16,
        }
    }

    /// Ends a block, whose slot stays in the hand: its header gets 255 in the byte three before the
    /// address, and 0 in the 16 bits behind it.
    pub fn kill(&self, hand: &mut Hand<N>, block: Block<N>) -> Slot<N>
        requires spare { 1 ≤ hand.old.spare }
        requires block { HasBlock hand.old block }
        ensures slot { result ≡ block.slot }
        ensures has { HasSlot hand.new result }
        ensures view { Kills hand.old.view block hand.old.number hand.new.view }
        ensures leaves { Leaves block.slot hand.old.view hand.new.view }
        ensures entries { hand.new.entries ≡ hand.old.entries ++ Take block.at ∷ [] }
        ensures spare { hand.new.spare + 1 ≡ hand.old.spare }
        ensures number { hand.new.number ≡ hand.old.number }
    {
        let header = self.load(hand, block.at - HEADER);
        let Block {
            slot,
            at,
            len: _,
            align: _,
        } = block;
        let killed = (header % 256 + 0xff00) as u32;
        let entry = Entry::Take { at };
        let number = hand.book.number();
        self.header_told::<Brand>(&mut hand.seat, at, killed, &slot, number, &entry);
        hand.book.push(entry);
        slot
    }

    /// Stores a number in a cell of a block, from its address up to the end of its slot.
    pub fn store_in(&self, hand: &mut Hand<N>, block: &Block<N>, addr: u64, value: u32)
        requires block { HasBlock hand.old block.now }
        requires cell { addr % 4 ≡ 0 }
        requires from { block.now.at ≤ addr }
        requires below { addr < block.now.slot.end }
        ensures view { hand.new.view ≡ stored hand.old.view block.now.slot.meta block.now.slot.index addr value }
        ensures others { KeepsOthers block.now.slot hand.old.view hand.new.view }
        ensures rest { KeepsRest hand.old.view hand.new.view }
        ensures has { HasBlock hand.new block.now }
        ensures number { hand.new.number ≡ hand.old.number }
        ensures spare { hand.new.spare ≡ hand.old.spare }
        ensures entries { hand.new.entries ≡ hand.old.entries }
    {
        let (meta, index) = block.slot.place();
        let value = u64::from(value);
        self.store_told::<Brand>(&mut hand.seat, addr, value, meta, index)
    }

    // A store of the header cell in front of an address of the slot, of which `T` tells with the
    // hand's number and the entry.
    fn header_told<T: Telling>(
        &self,
        seat: &mut Seat<(), View>,
        at: u64,
        header: u32,
        _slot: &Slot<N>,
        _number: u32,
        _entry: &Entry,
    )
        requires fits { seat.old.table_id ≡ N.facts.table }
        requires behind { 4 ≤ at }
        requires inside { at < 4096 * N.facts.start.pages }
        requires may { May N.facts.start seat.old.id seat.old.me.0 ((at - 4) / 4)
            (λ n. header) (λ before n after. T.told before header after) }
        ensures told { T.told seat.old.me.0 header seat.new.me.0 }
        ensures table { seat.new.table_id ≡ seat.old.table_id }
        ensures slots { seat.new.me.1 ≡ seat.old.me.1 }
    {
        self.store_told::<T>(seat, at - HEADER, u64::from(header), 0, 0)
    }
}

impl<N: Name> Slot<N> {
    // The meta and the index.
    fn place(&self) -> (u64, u32)
        ensures meta { result.0 ≡ self.now.meta }
        ensures index { result.1 ≡ self.now.index }
        ensures token { IsToken N.facts.start self.now }
    {
        (self.meta, self.index)
    }

    // The header cell of n bytes at an address of the slot.
    fn header(&self, at: u64, n: u64) -> u32
        requires from { self.now.start ≤ at }
        requires within { at + n ≤ self.now.end }
        ensures value { result ≡ header_at self.now at n }
        ensures token { IsToken N.facts.start self.now }
    {
        let offset = ((at - self.storage) / 16) as u32;
        let reserved = (self.end - at - n).min(5) as u32;
        let (check, offset) = if offset < 65536 { (0, offset) } else { (1, 0) };
        cell_of(Ib {
            check,
            index: self.index,
            reserved,
            offset,
        })
    }
}
