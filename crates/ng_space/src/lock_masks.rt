// The fetches of the lock's seat on the masks of live groups.
ghost use Rattle.std.specs.Prelude.{◌≡◌, ℕ, ◌%◌, ◌^◌};
ghost use Rattle.ng_view.specs.Lists.{Among};
ghost use Rattle.ng_view.specs.Fetches.{ClearsFreed, EmptiesAvail, HasGroup, MayPutBack, PushesFreed, StocksAvail};

use crate::lock::LockSeat;
use crate::name::Name;
use crate::space::Space;
use ng_meta::{AVAIL, FREED, mask_of};
use std::marker::Brand;

/// The upper half of a word, where an avail word has its tag.
const TAG: u64 = 0xffff_ffff_0000_0000;

impl<N: Name> Space<N> {
    /// Empties the avail mask of a live group, and answers it. The slots of its bits are in the seat,
    /// in motion, and the mask is noted as 0.
    pub fn empty_avail(&self, seat: &mut LockSeat<N>, meta: u64) -> u32
        requires live { HasGroup seat.old meta }
        ensures { (word : ℕ) × (result ≡ word % 2 ^ 32) × EmptiesAvail seat.old meta word seat.new }
    {
        let found = self.and_told::<Brand>(&mut seat.seat, meta + AVAIL, TAG, meta, 0);
        mask_of(found)
    }

    /// Clears these bits in the freed mask of a live group, and answers the mask found. The slots of
    /// the bits that were set are in the seat, in motion; where no bit is left, the mask is noted as 0.
    pub fn clear_freed(&self, seat: &mut LockSeat<N>, meta: u64, bits: u32) -> u32
        requires live { HasGroup seat.old meta }
        ensures { ClearsFreed seat.old meta bits result seat.new }
    {
        let bits = u64::from(bits);
        self.and_told::<Brand>(&mut seat.seat, meta + FREED, !bits, meta, bits) as u32
    }

    /// Sets these bits in the avail mask of a group, which is noted as 0. Their slots, which were in the
    /// seat in motion, are out of it.
    pub fn stock_avail(&self, seat: &mut LockSeat<N>, meta: u64, bits: u32)
        requires slots { MayPutBack seat.old meta bits }
        requires zero { Among meta seat.old.desk.zero_avail }
        ensures { (word : ℕ) × StocksAvail seat.old meta bits word seat.new }
    {
        let bits = u64::from(bits);
        self.or_told::<Brand>(&mut seat.seat, meta + AVAIL, bits, meta, bits);
    }

    /// Sets these bits in the freed mask of a group, and answers the mask found. Their slots, which were
    /// in the seat in motion, are out of it.
    pub fn push_parent(&self, seat: &mut LockSeat<N>, meta: u64, bits: u32) -> u32
        requires slots { MayPutBack seat.old meta bits }
        ensures { PushesFreed seat.old meta bits result seat.new }
    {
        let bits = u64::from(bits);
        self.or_told::<Brand>(&mut seat.seat, meta + FREED, bits, meta, bits) as u32
    }
}
