//! What a script made so far.
ghost use Rattle.std.specs.Prelude.{◌≡◌, ℕ, ◌<◌, ◌++◌, ◌∷◌, ◌*◌, ◌/◌, ◌^◌, List, [], Some, length, slice_index_or, swap_remove, vec_len, vec_capacity};
ghost use Rattle.ng_drill.specs.Desks.{IsDesk, IsIndexed, IsPlaceOf};
ghost use Rattle.ng_drill.specs.States.{address_of, shifted};
ghost use Rattle.ng_heap.specs.At.{HasNoneAt, IsPlaceAt};
ghost use Rattle.ng_script.specs.Reads.{IsNamedBelow};
ghost use Rattle.ng_script.specs.declared.command.Command.TheVariants as command;
ghost use Rattle.ng_space.specs.Blocks.{BlockToken};

use ng_script::{Place, Shift};
use ng_space::{Block, Hand, Name};

/// The addresses of a script's names, and the blocks that it made and didn't free, each found by its address.
pub(crate) struct Desk<N: Name> {
    /// Where each name's block was put, by the name's number.
    pub(crate) names: Vec<Option<u64>>,
    pub(crate) held: Vec<Block<N>>,
    /// The place in `held` of the block at an address, by the address in units of 16 bytes.
    pub(crate) places: Vec<Option<u32>>,
}

impl<N: Name> Desk<N> {
    /// The address of a place, if its name has one.
    pub(crate) fn address(&self, place: Place) -> Option<u64>
        requires { IsNamedBelow (length self.now.names.items) (command.Free place) }
        ensures { result ≡ address_of self.now.names.items place }
    {
        match place {
            Place::At(at) => Some(at),
            Place::Named { name, shift } => match self.names[name as usize] {
                Some(at) => Some(shifted(at, shift)),
                None => None,
            },
        }
    }

    /// The place of the block at an address.
    pub(crate) fn place_at(&self, at: u64) -> Option<usize>
        requires { IsIndexed self.now.held.items self.now.places.items }
        ensures { IsPlaceAt self.now.held.items at result }
    {
        if at % 16 != 0 {
            return None;
        }
        match self.places.get((at / 16) as usize) {
            Some(Some(place)) => Some(*place as usize),
            _ => None,
        }
    }

    /// The place of the block at a name's address.
    pub(crate) fn place_of(&self, name: u32) -> Option<usize>
        requires name { name < length self.now.names.items }
        requires index { IsIndexed self.now.held.items self.now.places.items }
        ensures { IsPlaceOf self.now.names.items self.now.held.items name result }
    {
        match self.names[name as usize] {
            Some(at) => self.place_at(at),
            None => None,
        }
    }

    /// A block stands from now on.
    pub(crate) fn insert(&mut self, block: Block<N>)
        requires none { HasNoneAt self.old.held.items block.at }
        requires index { IsIndexed self.old.held.items self.old.places.items }
        requires table { length self.old.places.items ≡ 256 * N.facts.start.pages }
        requires room { vec_len self.old.held < vec_capacity self.old.held }
        requires few { vec_len self.old.held < 2 ^ 32 }
        ensures names { self.new.names ≡ self.old.names }
        ensures held { self.new.held.items ≡ self.old.held.items ++ block ∷ [] }
        ensures room { vec_capacity self.new.held ≡ vec_capacity self.old.held }
        ensures index { IsIndexed self.new.held.items self.new.places.items }
        ensures table { length self.new.places.items ≡ length self.old.places.items }
    {
        let _gap = block.gap();
        let unit = (block.at() / 16) as usize;
        self.places[unit] = Some(self.held.len() as u32);
        self.held.push_reserved(block);
    }

    /// The block at an address went out of its place in `held`, and the last came there.
    pub(crate) fn forget(&mut self, at: u64, place: usize)
        requires there { at / 16 < length self.old.places.items }
        requires inside { (k : ℕ) (d : BlockToken) → k < length self.old.held.items
            → (slice_index_or self.old.held.items k d).at / 16 < length self.old.places.items }
        requires few { place < 2 ^ 32 }
        ensures names { self.new.names ≡ self.old.names }
        ensures held { self.new.held ≡ self.old.held }
        ensures index { (before : List BlockToken) (d : BlockToken) → IsPlaceAt before at (Some place) → self.old.held.items ≡ swap_remove before place d
            → IsIndexed before self.old.places.items → IsIndexed self.new.held.items self.new.places.items }
        ensures table { length self.new.places.items ≡ length self.old.places.items }
    {
        self.places[(at / 16) as usize] = None;
        if let Some(block) = self.held.get(place) {
            self.places[(block.at() / 16) as usize] = Some(place as u32);
        }
    }

    /// Leaves the blocks in the hand, where they stay live.
    pub(crate) fn leave(self, hand: &mut Hand<N>)
        ensures { hand.new ≡ hand.old }
    {
        let Desk {
            names: _names,
            mut held,
            places: _places,
        } = self;
        while let Some(block) = held.pop() {
            hand.leave(block);
        }
        held.destroy_empty();
    }
}

/// An address so far from another, within 64 bits.
fn shifted(at: u64, shift: Shift) -> u64
    ensures { result ≡ shifted shift at }
{
    match shift {
        Shift::Up(bytes) => at.saturating_add(bytes),
        Shift::Down(bytes) => at.saturating_sub(bytes),
    }
}
