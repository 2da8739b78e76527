ghost use Rattle.std.specs.Prelude.{◌≡◌, [], ◌∷◌};

use crate::block::Block;
use crate::name::Name;
use atomic_table::Seat;
use ng_history::{Book, Entry};
use ng_view::view::View;
use std::marker::{Model, PhantomData};

/// One caller of a heap: what it knows and holds there, and its book.
#[derive(Drop)]
pub struct Hand<N: Name> {
    pub(crate) seat: Seat<(), View>,
    pub(crate) book: Book,
    pub(crate) of: PhantomData<N>,
}

impl<N: Name> Model for Hand<N> {
    ghost use Rattle.ng_space.specs.Callers.{Caller};

    ghost Value = { Caller };

    ghost use Rattle.ng_space.specs.Seats.{IsCaller};

    ghost view = { λ hand. record {
      view = hand.seat.me.0;
      number = hand.book.number;
      spare = hand.book.spare;
      entries = hand.book.entries;
    } };

    ghost invariant = { λ hand. IsCaller N.facts.table hand.seat hand.book };
}

impl<N: Name> Hand<N> {
    /// The number of the hand and of its book.
    pub fn number(&self) -> u32
        ensures number { result ≡ self.now.number }
        ensures book { self.now.view.books ≡ record { number = self.now.number; entries = self.now.entries } ∷ [] }
    {
        self.book.number()
    }

    /// Leaves a block, which stays live in the hand: only the token is spent.
    pub fn leave(&mut self, block: Block<N>)
        ensures { self.new ≡ self.old }
    {
        let Block {
            slot,
            at: _,
            len: _,
            align: _,
        } = block;
        slot.leave();
    }

    /// How many entries the hand's book has room for.
    pub fn spare(&self) -> u64
        ensures { result ≡ self.now.spare }
    {
        self.book.spare()
    }

    /// What the hand has entered so far.
    pub fn entries(&self) -> &[Entry]
        ensures { result.now ≡ self.now.entries }
    {
        self.book.entries()
    }
}
