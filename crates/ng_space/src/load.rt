// What a hand reads and enters.
ghost use Rattle.std.specs.Prelude.{◌≡◌, ℕ, ◌/◌, ◌*◌, ◌%◌, ◌<◌, ◌≤◌, ◌+◌, ◌++◌, ◌∷◌, []};
ghost use Rattle.ng_view.specs.May.{May};
ghost use Rattle.ng_view.specs.Tells.{Tells};
ghost use Rattle.ng_view.specs.Steps.{loaded};
ghost use Rattle.ng_space.specs.Blocks.{BlockToken, HasBlock};
ghost use Rattle.ng_space.specs.Placed.{AreOnce, ArePlaced, IsSmall};
ghost use Rattle.ng_space.specs.Tokens.{HasSlot, Token};
ghost use Rattle.ng_space.specs.Entries.{IsLegalAnytime, Enters};

use crate::hand::Hand;
use crate::name::Name;
use crate::rule::Telling;
use crate::space::Space;
use atomic_table::Seat;
use ng_history::Entry;
use ng_view::view::View;
use std::marker::Brand;

impl<N: Name> Space<N> {
    /// Loads the word at an address, whose low half is the cell there. A cell of one of the hand's
    /// own slots is known from then on, and what the rule ties to the word is told.
    pub fn load(&self, hand: &mut Hand<N>, addr: u64) -> u64
        requires cell { addr % 4 ≡ 0 }
        requires inside { addr < 4096 * N.facts.start.pages }
        ensures view { hand.new.view ≡ loaded hand.old.view addr result }
        ensures told { Tells N.facts.start hand.old.view addr result }
        ensures placed { ArePlaced N.facts.start hand.old.view }
        ensures once { AreOnce hand.old.view }
        ensures small { IsSmall hand.old.view addr result }
        ensures slots { (slot : Token) → HasSlot hand.old slot → HasSlot hand.new slot }
        ensures blocks { (block : BlockToken) → HasBlock hand.old block → HasBlock hand.new block }
        ensures number { hand.new.number ≡ hand.old.number }
        ensures spare { hand.new.spare ≡ hand.old.spare }
        ensures entries { hand.new.entries ≡ hand.old.entries }
    {
        self.load_told::<Brand>(&mut hand.seat, addr)
    }

    /// Enters a request or a pointer that is refused whatever the heap is: one too large, a bad
    /// alignment, or a bad pointer. It loads word 0.
    pub fn enter(&self, hand: &mut Hand<N>, entry: Entry)
        requires spare { 1 ≤ hand.old.spare }
        requires legal { IsLegalAnytime entry }
        ensures entries { hand.new.entries ≡ hand.old.entries ++ entry ∷ [] }
        ensures view { Enters hand.old.view hand.old.number entry hand.new.view }
        ensures spare { hand.new.spare + 1 ≡ hand.old.spare }
        ensures number { hand.new.number ≡ hand.old.number }
    {
        let number = hand.book.number();
        self.enter_told::<Brand>(&mut hand.seat, number, &entry);
        hand.book.push(entry);
    }

    // A load of word 0, of which `T` tells with the number and the entry.
    pub(crate) fn enter_told<T: Telling>(
        &self,
        seat: &mut Seat<(), View>,
        _number: u32,
        _entry: &Entry,
    )
        requires fits { seat.old.table_id ≡ N.facts.table }
        requires may { May N.facts.start seat.old.id seat.old.me.0 (0 / 4) (λ n. n) T.told }
        ensures told { (found : ℕ) × T.told seat.old.me.0 found seat.new.me.0 }
        ensures table { seat.new.table_id ≡ seat.old.table_id }
        ensures slots { seat.new.me.1 ≡ seat.old.me.1 }
    {
        self.load_told::<T>(seat, 0);
    }
}
