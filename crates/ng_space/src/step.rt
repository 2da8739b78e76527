// Single steps of a seat on the table. Each tells what its caller picks, as far as the rule allows it.
ghost use Rattle.std.specs.Prelude.{◌≡◌, ◌*◌, ◌/◌, ◌<◌, ◌==◌, []};
ghost use prog.Atomic.{either};
ghost use Rattle.ng_view.specs.Cuts.{Merge};
ghost use Rattle.ng_space.specs.Splits.{MaySplit};
ghost use Rattle.ng_view.specs.May.{May};
ghost use Rattle.ng_view.specs.Steps.{spent};

use crate::name::Name;
use crate::rule::{Passes, Passing, Telling, Tells};
use crate::space::Space;
use atomic_table::Seat;
use ng_view::view::View;

const CELL: u64 = 4;

impl<N: Name> Space<N> {
    pub(crate) fn load_told<T: Telling>(&self, seat: &mut Seat<(), View>, addr: u64) -> u64
        requires fits { seat.old.table_id ≡ N.facts.table }
        requires inside { addr < 4096 * N.facts.start.pages }
        requires may { May N.facts.start seat.old.id seat.old.me.0 (addr / 4) (λ n. n) T.told }
        ensures told { T.told seat.old.me.0 result seat.new.me.0 }
        ensures table { seat.new.table_id ≡ seat.old.table_id }
        ensures slots { seat.new.me.1 ≡ seat.old.me.1 }
    {
        self.table
            .shared
            .load::<Tells<T>>(seat, (addr / CELL) as usize)
    }

    pub(crate) fn store_told<T: Telling>(
        &self,
        seat: &mut Seat<(), View>,
        addr: u64,
        value: u64,
        _meta: u64,
        _index: u32,
    )
        requires fits { seat.old.table_id ≡ N.facts.table }
        requires inside { addr < 4096 * N.facts.start.pages }
        requires may { May N.facts.start seat.old.id seat.old.me.0 (addr / 4)
            (λ n. value) (λ before n after. T.told before value after) }
        ensures told { T.told seat.old.me.0 value seat.new.me.0 }
        ensures table { seat.new.table_id ≡ seat.old.table_id }
        ensures slots { seat.new.me.1 ≡ seat.old.me.1 }
    {
        self.table
            .shared
            .store::<Tells<T>>(seat, (addr / CELL) as usize, value)
    }

    pub(crate) fn exchange_told<T: Telling>(
        &self,
        seat: &mut Seat<(), View>,
        addr: u64,
        old: u64,
        new: u64,
        _meta: u64,
        _index: u32,
    ) -> u64
        requires fits { seat.old.table_id ≡ N.facts.table }
        requires inside { addr < 4096 * N.facts.start.pages }
        requires may { May N.facts.start seat.old.id seat.old.me.0 (addr / 4) (λ n. either (n == old) new n) T.told }
        ensures told { T.told seat.old.me.0 result seat.new.me.0 }
        ensures table { seat.new.table_id ≡ seat.old.table_id }
        ensures slots { seat.new.me.1 ≡ seat.old.me.1 }
    {
        self.table
            .shared
            .compare_exchange::<Tells<T>>(seat, (addr / CELL) as usize, old, new)
    }

    pub(crate) fn split_off<C: Passing>(&self, seat: &mut Seat<(), View>) -> Seat<(), View>
        requires fits { seat.old.table_id ≡ N.facts.table }
        requires allowed { MaySplit N.facts.start seat.old.id seat.old.me.0 C.left C.right }
        ensures left { seat.new.me.0 ≡ C.left }
        ensures right { result.me.0 ≡ C.right }
        ensures tables { (seat.new.table_id ≡ seat.old.table_id) × (result.table_id ≡ seat.old.table_id) }
        ensures slots { (seat.new.me.1 ≡ seat.old.me.1) × (result.me.1 ≡ []) }
    {
        self.table.shared.split_seat::<Passes<C>>(seat)
    }

    pub(crate) fn take_in<C: Passing>(&self, seat: &mut Seat<(), View>, other: Seat<(), View>)
        requires fits { (seat.old.table_id ≡ N.facts.table) × (other.table_id ≡ N.facts.table) × (other.me.1 ≡ []) }
        requires allowed { Merge seat.old.me.0 other.me.0 C.both spent }
        ensures both { seat.new.me.0 ≡ C.both }
        ensures table { seat.new.table_id ≡ seat.old.table_id }
        ensures slots { seat.new.me.1 ≡ seat.old.me.1 }
    {
        self.table.shared.join_seat::<Passes<C>>(seat, other);
    }
}
