// What the lock's seat fetches out of the masks of live groups, and sets in them again.
ghost use Rattle.std.specs.Prelude.{◌≡◌, ◌<◌, IfNone, IfSome};
ghost use Rattle.ng_view.specs.Fetches.{HasGroup};
ghost use Rattle.ng_mask.specs.Fetches.{Captures, FindsNone, MayStock, Stocks, Takes, TakesLowest};

use ng_class::{all_bits, lowest_bit};
use ng_space::{LockSeat, Name, Space};

/// Takes the lowest slot that is available in a live group into the seat, under the lock. There is
/// none exactly where the group's avail mask is 0.
pub fn pop_core<N: Name>(space: &Space<N>, seat: &mut LockSeat<N>, meta: u64) -> Option<u32>
    requires live { HasGroup seat.old meta }
    ensures taken { IfSome result (λ index. TakesLowest seat.old meta index seat.new) }
    ensures none { IfNone result (FindsNone seat.old meta seat.new) }
{
    let found = space.empty_avail(seat, meta);
    let index = lowest_bit(found)?;
    stock(space, seat, meta, found & !(1 << index));
    Some(index)
}

/// Takes those of the slots 0 to `upto` that are freed in a live group into the seat, and answers
/// their bits.
pub fn take<N: Name>(space: &Space<N>, seat: &mut LockSeat<N>, meta: u64, upto: u32) -> u32
    requires live { HasGroup seat.old meta }
    requires upto { upto < 32 }
    ensures taken { Takes seat.old meta upto result seat.new }
{
    let bits = all_bits(upto);
    space.clear_freed(seat, meta, bits) & bits
}

/// Makes the slots of these bits available, which are in the seat, in motion. Nothing is done where
/// there are none.
pub fn stock<N: Name>(space: &Space<N>, seat: &mut LockSeat<N>, meta: u64, bits: u32)
    requires may { MayStock seat.old meta bits }
    ensures none { bits ≡ 0 → seat.new ≡ seat.old }
    ensures stocked { 0 < bits → Stocks seat.old meta bits seat.new }
{
    if bits != 0 {
        space.stock_avail(seat, meta, bits);
    }
}

/// Takes all slots that are available or freed in a live group into the seat, and answers their
/// bits, those of avail first.
pub fn capture<N: Name>(space: &Space<N>, seat: &mut LockSeat<N>, meta: u64) -> (u32, u32)
    requires live { HasGroup seat.old meta }
    ensures captured { Captures seat.old meta result.0 result.1 seat.new }
{
    let avail = space.empty_avail(seat, meta);
    let freed = take(space, seat, meta, 31);
    (avail, freed)
}
