// The notes of the lock's seat: each is one load, at which its view changes.
ghost use Rattle.std.specs.Prelude.{◌≡◌, ℕ, ◌*◌, ◌/◌, ◌<◌};
ghost use Rattle.ng_view.specs.Conditions.{AreaBuilt};
ghost use Rattle.ng_view.specs.May.{May};
ghost use Rattle.ng_view.specs.Fetches.{HasGroup};
ghost use Rattle.ng_view.specs.Notes.{IsNewRefusal, MayNoteRun, NotesArea, NotesRefusal, NotesRing, NotesRun, plain_run};

use crate::lock::LockSeat;
use crate::name::Name;
use crate::rule::Telling;
use crate::space::Space;
use atomic_table::Seat;
use ng_meta::FREED;
use ng_view::view::View;
use std::marker::Brand;

impl<N: Name> Space<N> {
    /// Reads the freed mask of a live group, which is the answer, and notes where the group stands:
    /// listed in a ring, or, where both its masks are 0, no more listed.
    pub fn note_ring(&self, seat: &mut LockSeat<N>, meta: u64, listed: bool) -> u32
        requires live { HasGroup seat.old meta }
        ensures { NotesRing seat.old meta listed result seat.new }
    {
        self.ring_told::<Brand>(&mut seat.seat, meta + FREED, meta, listed) as u32
    }

    /// Notes that a run of pages came, whose cells are 0, or that it goes, where the seat knows all its
    /// cells to be 0.
    pub fn note_run(&self, seat: &mut LockSeat<N>, addr: u64, pages: u64, live: bool)
        requires run { MayNoteRun N.facts.start seat.old addr pages live }
        ensures { NotesRun seat.old addr pages live seat.new }
    {
        self.note_told::<Brand>(&mut seat.seat, addr, pages, live)
    }

    /// Notes that the run of one page at an address is an area of metas, whose cells the seat knows. The
    /// cells of its metas stay the seat's to build.
    pub fn note_area(&self, seat: &mut LockSeat<N>, addr: u64)
        requires built { AreaBuilt N.facts.start seat.old (plain_run addr 1) }
        ensures { NotesArea seat.old addr seat.new }
    {
        self.note_told::<Brand>(&mut seat.seat, addr, 1, true)
    }

    /// Notes that a map call was refused, by its number: the seat has its excuse.
    pub fn note_refusal(&self, seat: &mut LockSeat<N>, number: u64)
        requires number { IsNewRefusal seat.old number }
        ensures { NotesRefusal seat.old number seat.new }
    {
        self.note_told::<Brand>(&mut seat.seat, 0, number, true)
    }

    // A load of a freed mask, of which `T` tells with the meta and whether it is listed.
    fn ring_told<T: Telling>(
        &self,
        seat: &mut Seat<(), View>,
        addr: u64,
        _meta: u64,
        _listed: bool,
    ) -> u64
        requires fits { seat.old.table_id ≡ N.facts.table }
        requires inside { addr < 4096 * N.facts.start.pages }
        requires may { May N.facts.start seat.old.id seat.old.me.0 (addr / 4) (λ n. n) T.told }
        ensures told { T.told seat.old.me.0 result seat.new.me.0 }
        ensures table { seat.new.table_id ≡ seat.old.table_id }
        ensures slots { seat.new.me.1 ≡ seat.old.me.1 }
    {
        self.load_told::<T>(seat, addr)
    }

    // A load of word 0, of which `T` tells with two numbers and whether the run is live.
    fn note_told<T: Telling>(
        &self,
        seat: &mut Seat<(), View>,
        _addr: u64,
        _number: u64,
        _live: bool,
    )
        requires fits { seat.old.table_id ≡ N.facts.table }
        requires may { May N.facts.start seat.old.id seat.old.me.0 (0 / 4) (λ n. n) T.told }
        ensures told { (found : ℕ) × T.told seat.old.me.0 found seat.new.me.0 }
        ensures table { seat.new.table_id ≡ seat.old.table_id }
        ensures slots { seat.new.me.1 ≡ seat.old.me.1 }
    {
        self.load_told::<T>(seat, 0);
    }
}
