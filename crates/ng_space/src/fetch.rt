// Single fetches of the lock's seat. Each tells what its caller picks, as far as the rule allows it.
ghost use Rattle.std.specs.Prelude.{◌≡◌, ◌*◌, ◌/◌, ◌<◌, bit_and, bit_or};
ghost use Rattle.ng_view.specs.May.{May};

use crate::name::Name;
use crate::rule::{Telling, Tells};
use crate::space::Space;
use atomic_table::Seat;
use ng_view::view::View;

const CELL: u64 = 4;

impl<N: Name> Space<N> {
    pub(crate) fn and_told<T: Telling>(
        &self,
        seat: &mut Seat<(), View>,
        addr: u64,
        kept: u64,
        _meta: u64,
        _bits: u64,
    ) -> u64
        requires fits { seat.old.table_id ≡ N.facts.table }
        requires inside { addr < 4096 * N.facts.start.pages }
        requires may { May N.facts.start seat.old.id seat.old.me.0 (addr / 4) (λ n. bit_and n kept) T.told }
        ensures told { T.told seat.old.me.0 result seat.new.me.0 }
        ensures table { seat.new.table_id ≡ seat.old.table_id }
        ensures slots { seat.new.me.1 ≡ seat.old.me.1 }
    {
        self.table
            .shared
            .fetch_and::<Tells<T>>(seat, (addr / CELL) as usize, kept)
    }

    pub(crate) fn or_told<T: Telling>(
        &self,
        seat: &mut Seat<(), View>,
        addr: u64,
        added: u64,
        _meta: u64,
        _bits: u64,
    ) -> u64
        requires fits { seat.old.table_id ≡ N.facts.table }
        requires inside { addr < 4096 * N.facts.start.pages }
        requires may { May N.facts.start seat.old.id seat.old.me.0 (addr / 4) (λ n. bit_or n added) T.told }
        ensures told { T.told seat.old.me.0 result seat.new.me.0 }
        ensures table { seat.new.table_id ≡ seat.old.table_id }
        ensures slots { seat.new.me.1 ≡ seat.old.me.1 }
    {
        self.table
            .shared
            .fetch_or::<Tells<T>>(seat, (addr / CELL) as usize, added)
    }
}
