//! Freed slots taken: one for the caller, the others into the avail mask.
ghost use Rattle.std.specs.Prelude.{◌<◌};
ghost use Rattle.ng_meta.specs.Place.{IsMetaPlace};
ghost use Rattle.ng_view.specs.Lists.{Among};
ghost use Rattle.ng_view.specs.Fetches.{HasGroup};
ghost use Rattle.ng_serve.specs.Groups.{AreInSpace};
ghost use Rattle.ng_serve.specs.Takes.{HasFreed, StocksFreed, TakesFreed};

use crate::group::{active_index, group_of};
use ng_class::lowest_bit;
use ng_mask::{stock, take};
use ng_space::{LockSeat, Name, Space};

/// Takes the freed slots 0 to `upto` of a live group, one of which is noted, out of its freed mask.
/// The lowest is the answer and in the seat, in motion; the others are in the avail mask, which was
/// noted as 0.
pub fn take_freed<N: Name>(space: &Space<N>, seat: &mut LockSeat<N>, meta: u64, upto: u32) -> u32
    requires place { IsMetaPlace meta N.facts.start.pages }
    requires live { HasGroup seat.old meta }
    requires bare { Among meta seat.old.desk.zero_avail }
    requires upto { upto < 32 }
    requires freed { HasFreed seat.old meta upto }
    ensures { TakesFreed seat.old meta result seat.new }
{
    let taken = take(space, seat, meta, upto);
    let index = lowest_bit(taken).unwrap();
    stock(space, seat, meta, taken & !(1 << index));
    index
}

/// Puts those of a live group's slots in use that are freed into its avail mask, which was noted as
/// 0.
pub fn stock_freed<N: Name>(space: &Space<N>, seat: &mut LockSeat<N>, meta: u64)
    requires place { IsMetaPlace meta N.facts.start.pages }
    requires live { HasGroup seat.old meta }
    requires bare { Among meta seat.old.desk.zero_avail }
    requires inside { AreInSpace N.facts.start.pages seat.old.desk.groups }
    ensures { StocksFreed seat.old meta seat.new }
{
    let group = group_of(space, seat, meta);
    let active = active_index(space, seat, group.base);
    let taken = take(space, seat, meta, active);
    stock(space, seat, meta, taken);
}
