ghost use Rattle.std.specs.Prelude.{◌≡◌, ◌*◌, ◌≤◌, IfOk, length, vec_capacity, true, []};
ghost use Rattle.ng_view.specs.Layouts.{InRange};
ghost use Rattle.ng_view.specs.Steps.{fresh_hand, next_hand};
ghost use Rattle.ng_space.specs.Callers.{fresh_callers, opened};

use crate::blank::Blank;
use crate::hand::Hand;
use crate::lock::LockSeat;
use crate::name::Name;
use crate::rule::Law;
use atomic_table::{Seat, Table};
use ng_history::{Book, Host};
use ng_view::view::{Start, View};
use std::alloc::Global;
use std::marker::{Brand, PhantomData};

/// The cells of the heap `N`, which threads share by reference.
#[derive(Drop)]
pub struct Space<N: Name> {
    pub(crate) table: Table<(), View, Start, Law, Global>,
    pub(crate) start: Start,
    pub(crate) of: PhantomData<N>,
    ghost named: { table.shared.table_id ≡ N.facts.table },
    ghost ruled: { table.shared.key ≡ N.facts.start },
    ghost started: { start ≡ N.facts.start },
    ghost range: { InRange N.facts.start },
    ghost words: { table.shared.table_id.words ≡ 1024 * N.facts.start.pages },
    ghost slots: { table.shared.table_id.slots ≡ 0 },
}

impl<N: Name> Space<N> {
    /// Gives the heap its name: its cells, the seat for its lock, and a hand for each book, numbered
    /// from 1 on. All cells are 0. Only the list of hands takes memory.
    pub fn open(alloc: Global, blank: Blank) -> Result<(Space<N>, LockSeat<N>, Vec<Hand<N>>), Host>
        requires table { blank.table ≡ N.facts.table }
        requires start { blank.start ≡ N.facts.start }
        requires hands { length blank.rooms ≡ N.facts.hands }
        ensures lock { IfOk result (λ made. made.1 ≡ opened N.facts.start N.facts.hands) }
        ensures hands { IfOk result (λ made. made.2.items ≡ fresh_callers 1 blank.rooms) }
    {
        let Blank {
            table,
            mut seat,
            start,
            books,
            shelf,
        } = blank;
        let Ok(mut hands) = Vec::with_capacity(alloc, books.len()) else {
            return Err(Host);
        };
        let space = Space {
            table,
            start,
            of: PhantomData,
        };
        for book in books {
            hands.push_reserved(space.next_hand(&mut seat, book));
        }
        let lock = LockSeat {
            seat,
            shelf,
            of: PhantomData,
        };
        Ok((space, lock, hands))
    }

    // The next hand is split off the lock's seat.
    fn next_hand(&self, seat: &mut Seat<(), View>, book: Book) -> Hand<N>
        requires fits { seat.old.table_id ≡ N.facts.table }
        requires leads { seat.old.me.0.leads ≡ true }
        requires next { seat.old.me.0.desk.next ≡ book.number }
        requires fresh { book.entries ≡ [] }
        ensures lock { seat.new.me ≡ (next_hand seat.old.me.0, seat.old.me.1) }
        ensures table { seat.new.table_id ≡ seat.old.table_id }
        ensures hand { result ≡ record { view = fresh_hand book.number; number = book.number; spare = book.spare; entries = [] } }
    {
        let seat = self.split_off::<Brand>(seat);
        Hand {
            seat,
            book,
            of: PhantomData,
        }
    }

    /// What the heap started with.
    pub fn start(&self) -> &Start
        ensures { result.now ≡ N.facts.start }
    {
        &self.start
    }

    /// How many pages of 4096 bytes the space has.
    pub fn pages(&self) -> u32
        ensures pages { result ≡ N.facts.start.pages }
        ensures few { result ≤ 16384 }
        ensures range { InRange N.facts.start }
    {
        self.start.pages as u32
    }
}
