// The end of a heap.
ghost use Rattle.std.specs.Prelude.{◌≡◌, true, false};
ghost use Rattle.ng_view.specs.Conditions.{IsSettled, IsBlanked};
ghost use Rattle.ng_view.specs.Steps.{hosting};
ghost use Rattle.ng_view.specs.Views.{no_desk};
ghost use Rattle.ng_space.specs.Closings.{AreAll, EndsWith, HasOwnBook, IsClosed, IsEven, books_of};

use crate::hand::Hand;
use crate::image::Image;
use crate::lock::LockSeat;
use crate::name::Name;
use crate::space::Space;
use atomic_table::Seat;
use ng_history::Book;
use ng_view::view::View;
use std::marker::Brand;

impl<N: Name> Space<N> {
    /// Ends the heap. The lock's seat takes in all hands, whose books come back in their order; the
    /// image has the last words, which with what the seats knew at the end meet the rule; no two seats
    /// had a slot with the same cell. It takes no memory.
    pub fn close(self, seat: LockSeat<N>, hands: Vec<Hand<N>>) -> (Image, Vec<Book>)
        requires all { AreAll N.facts.hands hands.items }
        requires parcels { IsEven hands.items }
        requires settled { IsSettled seat }
        requires blanked { IsBlanked seat }

        ensures closed { IsClosed N.facts.start result.0.words seat hands.items }
        ensures pages { result.0.pages ≡ N.facts.start.pages }
        ensures books { result.1.items ≡ books_of hands.items }
    {
        let LockSeat {
            mut seat,
            shelf: mut books,
            of: _,
        } = seat;
        for hand in hands {
            books.push_reserved(self.take_hand(&mut seat, hand));
        }
        (self.close_seat(seat), books)
    }

    // The hand comes whole into the lock's seat, and its book is left.
    fn take_hand(&self, seat: &mut Seat<(), View>, hand: Hand<N>) -> Book
        requires fits { seat.old.table_id ≡ N.facts.table }
        requires leads { seat.old.me.0.leads ≡ true }
        ensures seat { seat.new.me ≡ (hosting seat.old.me.0 hand.view, seat.old.me.1) }
        ensures table { seat.new.table_id ≡ seat.old.table_id }
        ensures book { result ≡ record { number = hand.number; spare = hand.spare; entries = hand.entries } }

        // What was known of the hand by its type.
        ensures deskless { hand.view.desk ≡ no_desk }
        ensures own { HasOwnBook hand }
        ensures whole { hand.view.parcel ≡ false }
    {
        let Hand {
            seat: own,
            book,
            of: _,
        } = hand;
        self.take_in::<Brand>(seat, own);
        book
    }

    fn close_seat(self, seat: Seat<(), View>) -> Image
        requires fits { seat.table_id ≡ N.facts.table }
        ensures ended { EndsWith N.facts.start result.words seat.me.0 }
        ensures pages { result.pages ≡ N.facts.start.pages }
    {
        let pages = self.pages();
        let Space {
            table,
            start: _,
            of: _,
        } = self;
        Image::new(table.close_with(seat), pages)
    }
}
