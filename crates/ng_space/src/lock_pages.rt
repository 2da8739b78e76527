// The loads of the lock's seat, and its stores in pages that it has.
ghost use Rattle.std.specs.Prelude.{◌≡◌, ◌*◌, ◌%◌, ◌<◌};
ghost use Rattle.ng_view.specs.Loads.{Loads, TellsGroups};
ghost use Rattle.ng_view.specs.Stores.{MayStore, Stores};
ghost use Rattle.ng_space.specs.Placed.{AreOfGroups};

use crate::lock::LockSeat;
use crate::name::Name;
use crate::space::Space;
use std::marker::Brand;

impl<N: Name> Space<N> {
    /// Loads the word at an address. A cell that the seat builds or clears is then known; of a live
    /// group's masks it is noted that they are 0, and which freed bits are set.
    pub fn load_seat(&self, seat: &mut LockSeat<N>, addr: u64) -> u64
        requires cell { addr % 4 ≡ 0 }
        requires inside { addr < 4096 * N.facts.start.pages }
        ensures view { Loads seat.old addr result seat.new }
        ensures told { TellsGroups seat.old addr result }
        ensures slots { AreOfGroups seat.old }
    {
        self.load_told::<Brand>(&mut seat.seat, addr)
    }

    /// Stores a number in a cell that the seat builds or clears, in the active index of a live group,
    /// or in a slot in motion, where a header gets a low byte of 0.
    pub fn store_page(&self, seat: &mut LockSeat<N>, addr: u64, value: u32)
        requires inside { addr < 4096 * N.facts.start.pages }
        requires may { MayStore seat.old addr value }
        ensures { Stores seat.old addr value seat.new }
    {
        self.store_told::<Brand>(&mut seat.seat, addr, u64::from(value), 0, 0)
    }
}
