use crate::name::Name;
use atomic_table::Seat;
use ng_history::Book;
use ng_view::view::View;
use std::marker::{Model, PhantomData};

/// The seat that stands under the heap's lock. It alone knows the runs and the groups.
#[derive(Drop)]
pub struct LockSeat<N: Name> {
    pub(crate) seat: Seat<(), View>,
    // Where the books come to lie at a close.
    pub(crate) shelf: Vec<Book>,
    pub(crate) of: PhantomData<N>,
}

impl<N: Name> Model for LockSeat<N> {
    ghost use Rattle.std.specs.Prelude.{vec_capacity};
    ghost use Rattle.ng_view.specs.declared.view.View.{View};
    ghost use Rattle.ng_space.specs.Seats.{IsLockSeat};

    ghost Value = { View };

    ghost view = { λ lock. lock.seat.me.0 };

    ghost invariant = { λ lock. IsLockSeat N.facts lock.seat lock.shelf.items (vec_capacity lock.shelf) };
}
