//! What a live group's words say of it, and how far its slots are in use.
ghost use Rattle.std.specs.Prelude.{◌⊎◌, ◌+◌, ◌<◌, ◌≤◌};
ghost use Rattle.ng_meta.specs.Place.{IsMetaPlace};
ghost use Rattle.ng_view.specs.Fetches.{HasGroup};
ghost use Rattle.ng_view.specs.Stores.{IsActiveIndex};
ghost use Rattle.ng_mask.specs.Fetches.{OfGroup};
ghost use Rattle.ng_space.specs.Placed.{AreOfGroups, HasSlotOf};
ghost use Rattle.ng_serve.specs.Groups.{AreInSpace, Describes, IsRaisedTo, ReadsFields, ReadsIndex};
ghost use Rattle.ng_serve.specs.Reads.{Reads};

use ng_meta::{ACTIVE, FLAGS, MEM, fields_of, mask_of, tag_of};
use ng_shelf::raised;
use ng_space::{LockSeat, Name, Space};

/// The numbers of a live group: its address, its size class, the index of its last slot, and the
/// pages of its run, 0 for a nested one.
#[derive(Clone, Copy, Debug, PartialEq, Eq)]
pub struct LiveGroup {
    pub base: u64,
    pub class: u32,
    pub last: u32,
    pub maplen: u64,
}

/// The numbers of the live group of a meta, by its two words of mem and flags.
pub fn group_of<N: Name>(space: &Space<N>, seat: &mut LockSeat<N>, meta: u64) -> LiveGroup
    requires place { IsMetaPlace meta N.facts.start.pages }
    requires live { HasGroup seat.old meta }
    ensures group { OfGroup seat.old meta (Describes result) }
    ensures class { result.class < 64 }
    ensures last { result.last < 32 }
    ensures loads { ReadsFields seat.old meta seat.new }
    ensures reads { Reads seat.old seat.new }
{
    read_group(space, seat, meta)
}

/// The same of the meta of a slot that is in the seat, whose group is live for that.
pub fn group_of_slot<N: Name>(space: &Space<N>, seat: &mut LockSeat<N>, meta: u64) -> LiveGroup
    requires place { IsMetaPlace meta N.facts.start.pages }
    requires slot { HasSlotOf seat.old meta }
    ensures slots { AreOfGroups seat.old }
    ensures group { OfGroup seat.old meta (Describes result) }
    ensures class { result.class < 64 }
    ensures last { result.last < 32 }
    ensures loads { ReadsFields seat.old meta seat.new }
    ensures reads { Reads seat.old seat.new }
{
    read_group(space, seat, meta)
}

// The two words, which the seat's notes or one of its slots show to be those of a live group.
fn read_group<N: Name>(space: &Space<N>, seat: &mut LockSeat<N>, meta: u64) -> LiveGroup
    requires place { IsMetaPlace meta N.facts.start.pages }
    requires live { HasGroup seat.old meta ⊎ HasSlotOf seat.old meta }
    ensures slots { AreOfGroups seat.old }
    ensures group { OfGroup seat.old meta (Describes result) }
    ensures class { result.class < 64 }
    ensures last { result.last < 32 }
    ensures loads { ReadsFields seat.old meta seat.new }
    ensures reads { Reads seat.old seat.new }
{
    let base = space.load_seat(seat, meta + MEM);
    let flags = space.load_seat(seat, meta + FLAGS);
    let fields = fields_of(mask_of(flags), tag_of(flags));
    LiveGroup {
        base,
        class: fields.class,
        last: fields.last,
        maplen: fields.maplen,
    }
}

/// The highest index of the slots in use in the live group at an address. Only its lowest five bits
/// count.
pub fn active_index<N: Name>(space: &Space<N>, seat: &mut LockSeat<N>, base: u64) -> u32
    requires group { IsActiveIndex seat.old (base + 8) }
    requires inside { AreInSpace N.facts.start.pages seat.old.desk.groups }
    ensures small { result < 32 }
    ensures index { ReadsIndex seat.old base result seat.new }
    ensures reads { Reads seat.old seat.new }
{
    (space.load_seat(seat, base + ACTIVE) & 31) as u32
}

/// Raises the highest index in use of a live group until the slot `lowest` is in use, and answers
/// it.
pub fn activate<N: Name>(
    space: &Space<N>,
    seat: &mut LockSeat<N>,
    group: &LiveGroup,
    lowest: u32,
) -> u32
    requires group { IsActiveIndex seat.old (group.now.base + 8) }
    requires inside { AreInSpace N.facts.start.pages seat.old.desk.groups }
    requires class { group.now.class < 48 }
    requires last { group.now.last < 32 }
    requires lowest { lowest ≤ group.now.last }
    ensures reached { lowest ≤ result }
    ensures small { result < 32 }
    ensures within { IsRaisedTo seat.old group.now.base group.now.last result seat.new }
    ensures reads { Reads seat.old seat.new }
{
    let mut active = active_index(space, seat, group.base);
    while active < lowest {
        active = raised(group.class, active, group.last);
        space.store_page(seat, group.base + ACTIVE, active);
    }
    active
}
