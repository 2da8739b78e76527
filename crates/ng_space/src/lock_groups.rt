// Groups come to live in the lock's seat, and cease to.
ghost use Rattle.std.specs.Prelude.{◌≡◌, ◌+◌, ◌*◌, ◌/◌, ◌<◌, ◌≤◌};
ghost use Rattle.ng_view.specs.May.{May};
ghost use Rattle.ng_meta.specs.Place.{IsMetaPlace};
ghost use Rattle.ng_view.specs.Groups.{HasAllSlots, MayPublish, Publishes, Retires};

use crate::lock::LockSeat;
use crate::name::Name;
use crate::rule::Telling;
use crate::space::Space;
use atomic_table::Seat;
use ng_meta::{AVAIL, avail_word};
use ng_view::view::View;
use std::marker::Brand;

impl<N: Name> Space<N> {
    /// Makes the group of a meta live, whose cells the seat knows, with these free slots in its avail
    /// mask. The slots in neither mask are in the seat, in motion; the meta is listed, and a mask of 0
    /// is noted. A nested group is carried by its slot from then on.
    pub fn publish(&self, seat: &mut LockSeat<N>, meta: u64, class: u32, mask: u32)
        requires place { IsMetaPlace meta N.facts.start.pages }
        requires built { MayPublish seat.old meta class mask }
        ensures { Publishes seat.old meta class mask seat.new }
    {
        let word = avail_word(class, mask);
        self.publish_told::<Brand>(&mut seat.seat, meta, word, class, mask);
    }

    // A store of an avail word, of which `T` tells with the class and the mask.
    fn publish_told<T: Telling>(
        &self,
        seat: &mut Seat<(), View>,
        meta: u64,
        word: u64,
        _class: u32,
        mask: u32,
    )
        requires fits { seat.old.table_id ≡ N.facts.table }
        requires inside { meta + 24 < 4096 * N.facts.start.pages }
        requires pages { N.facts.start.pages ≤ 16384 }
        requires may { May N.facts.start seat.old.id seat.old.me.0 ((meta + 24) / 4) (λ n. word) (λ before n after. T.told before word after) }
        ensures told { T.told seat.old.me.0 word seat.new.me.0 }
        ensures table { seat.new.table_id ≡ seat.old.table_id }
        ensures slots { seat.new.me.1 ≡ seat.old.me.1 }
    {
        self.store_told::<T>(seat, meta + AVAIL, word, meta, mask)
    }

    /// Ends a group, of which every slot is in the seat, in motion. Its cells and those of its meta are
    /// the seat's to clear; the slot that carried it is in motion again.
    pub fn retire(&self, seat: &mut LockSeat<N>, meta: u64)
        requires slots { HasAllSlots seat.old meta }
        ensures { Retires seat.old meta seat.new }
    {
        self.store_told::<Brand>(&mut seat.seat, meta + AVAIL, 0, meta, 0)
    }
}
