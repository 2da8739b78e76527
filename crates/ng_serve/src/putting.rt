//! Slots in motion that go back into the masks of their group.
ghost use Rattle.std.specs.Prelude.{◌<◌};
ghost use Rattle.ng_meta.specs.Place.{IsMetaPlace};
ghost use Rattle.ng_view.specs.Lists.{Among};
ghost use Rattle.ng_view.specs.Fetches.{MayPutBack};
ghost use Rattle.ng_serve.specs.Takes.{HasBare, HasCaptured, IsServed, PutsBits, PutsCaptured, PutsSlot};

use ng_mask::stock;
use ng_space::{LockSeat, Name, Space};

/// Sets these bits in a group's freed mask, whose slots were in the seat, in motion. Nothing is done
/// where there are none.
pub fn put_bits<N: Name>(space: &Space<N>, seat: &mut LockSeat<N>, meta: u64, bits: u32)
    requires place { IsMetaPlace meta N.facts.start.pages }
    requires may { 0 < bits → MayPutBack seat.old meta bits }
    ensures { PutsBits seat.old meta bits seat.new }
{
    if bits != 0 {
        space.push_parent(seat, meta, bits);
    }
}

/// Sets the bit of one slot in its group's freed mask, which was in the seat, in motion.
pub fn put_slot<N: Name>(space: &Space<N>, seat: &mut LockSeat<N>, meta: u64, index: u32)
    requires place { IsMetaPlace meta N.facts.start.pages }
    requires served { IsServed seat.old meta }
    requires slot { HasBare seat.old.held meta index }
    ensures { PutsSlot seat.old meta index seat.new }
{
    put_bits(space, seat, meta, 1 << index);
}

/// Sets the bits of two captured masks again, of avail and of freed, and the bit of one more slot in
/// the freed mask.
pub fn put_captured<N: Name>(
    space: &Space<N>,
    seat: &mut LockSeat<N>,
    meta: u64,
    masks: (u32, u32),
    index: u32,
)
    requires place { IsMetaPlace meta N.facts.start.pages }
    requires served { IsServed seat.old meta }
    requires bare { Among meta seat.old.desk.zero_avail }
    requires captured { HasCaptured seat.old meta masks.0 masks.1 index }
    ensures { PutsCaptured seat.old meta masks.0 masks.1 index seat.new }
{
    let (avail, freed) = masks;
    put_bits(space, seat, meta, freed);
    stock(space, seat, meta, avail);
    put_slot(space, seat, meta, index);
}
