ghost use Rattle.std.specs.Prelude.{◌≡◌, ◌+◌, ◌*◌, ◌%◌, ◌^◌, ◌<◌, ◌≤◌};
ghost use Rattle.ng_meta.specs.Place.{IsMetaPlace};
ghost use Rattle.ng_view.specs.Groups.{MayPublish, Publishes};
ghost use Rattle.ng_build.specs.Drafts.{IsBlankMeta, IsCounted, avail_of, draft_group};
ghost use Rattle.ng_build.specs.Nestings.{AreHeadersLow, HasCarrier, HasHead, HasWritten, OnlySlot, PublishesSlot, SeesIn, StoresBefore};
ghost use Rattle.ng_build.specs.Written.{HasHeaders, KeepsIn};

use crate::draft::{Draft, write_meta};
use ng_class::{IB, UNIT, stride};
use ng_header::{Ib, cell_of};
use ng_meta::ACTIVE;
use ng_space::{LockSeat, Name, Space};

/// The reserved field of the header of a slot that carries a group.
const CARRIES: u32 = 6;

// Of a group in a slot: the cell behind its meta's address, and the header cell of its slot 0.
const META_HIGH: u64 = 4;

const HEADER: u64 = 12;

/// A slot that is to carry a group: the meta of its own group and its index, where the slots of that
/// group begin, and the bytes from one to the next.
#[derive(Clone, Copy, Debug, PartialEq, Eq)]
pub struct Carrier {
    pub meta: u64,
    pub index: u32,
    pub storage: u64,
    pub stride: u64,
}

/// Builds a group in a slot in motion of the seat, whose header then tells that it carries one, and
/// makes it live. The slot 0 of the new group is in the seat, in motion, and its carrier is out of it.
pub fn publish_slot<N: Name>(
    space: &Space<N>,
    seat: &mut LockSeat<N>,
    draft: &Draft,
    parent: &Carrier,
)
    requires place { IsMetaPlace draft.now.meta N.facts.start.pages }
    requires meta { IsBlankMeta seat.old draft.now.meta }
    requires counted { IsCounted draft.now }
    requires whole { draft.now.base % 16 ≡ 0 }
    requires inside { draft.now.base + parent.now.stride ≤ 4096 * N.facts.start.pages }
    requires carrier { HasCarrier seat.old parent.now (draft_group draft.now) }
    ensures { PublishesSlot seat.old parent.now.meta parent.now.index (draft_group draft.now) draft.now.active seat.new }
{
    write_head(space, seat, draft, parent);
    write_headers(space, seat, draft, parent);
    write_meta(space, seat, draft);
    publish_carried(space, seat, draft, parent);
}

/// Makes a group live that is written in its carrier, whose header and head are known, and that its slots' headers are
/// 0: a group that lives in a slot began with these.
pub fn publish_carried<N: Name>(
    space: &Space<N>,
    seat: &mut LockSeat<N>,
    draft: &Draft,
    _parent: &Carrier,
)
    requires place { IsMetaPlace draft.now.meta N.facts.start.pages }
    requires counted { IsCounted draft.now }
    requires built { MayPublish seat.old draft.now.meta draft.now.class (avail_of draft.now.active) }
    requires written { HasWritten seat.old _parent.now draft.now.base draft.now.meta draft.now.active }
    requires lows { AreHeadersLow seat.old _parent.now.meta _parent.now.index (draft_group draft.now) _parent.now.stride }
    ensures { Publishes seat.old draft.now.meta draft.now.class (avail_of draft.now.active) seat.new }
{
    space.publish(seat, draft.meta, draft.class, draft.avail());
}

/// Stores the header of a carrier, and the head of the group at its start.
pub fn write_head<N: Name>(
    space: &Space<N>,
    seat: &mut LockSeat<N>,
    draft: &Draft,
    parent: &Carrier,
)
    requires meta { draft.now.meta < 2 ^ 32 }
    requires whole { draft.now.base % 16 ≡ 0 }
    requires inside { draft.now.base + parent.now.stride ≤ 4096 * N.facts.start.pages }
    requires carrier { HasCarrier seat.old parent.now (draft_group draft.now) }
    ensures view { OnlySlot seat.old parent.now.meta parent.now.index seat.new }
    ensures written { HasWritten seat.new parent.now draft.now.base draft.now.meta draft.now.active }
    ensures stores { StoresBefore seat.old seat.new (draft.now.base + 12) }
{
    let offset = (draft.base - parent.storage) / UNIT;
    let header = Ib {
        check: 0,
        index: parent.index,
        reserved: CARRIES,
        offset: offset as u32,
    };
    space.store_page(seat, draft.base - IB, cell_of(header));
    space.store_page(seat, draft.base, draft.meta as u32);
    space.store_page(seat, draft.base + META_HIGH, 0);
    space.store_page(seat, draft.base + ACTIVE, draft.active);
}

// The header cells of the group's slots, and the one behind the last where it is the carrier's own.
fn write_headers<N: Name>(space: &Space<N>, seat: &mut LockSeat<N>, draft: &Draft, parent: &Carrier)
    requires whole { draft.now.base % 16 ≡ 0 }
    requires inside { draft.now.base + parent.now.stride ≤ 4096 * N.facts.start.pages }
    requires last { draft.now.last < 32 }
    requires carrier { HasCarrier seat.old parent.now (draft_group draft.now) }
    ensures view { OnlySlot seat.old parent.now.meta parent.now.index seat.new }
    ensures lows { AreHeadersLow seat.new parent.now.meta parent.now.index (draft_group draft.now) parent.now.stride }
    ensures kept { KeepsIn seat.old seat.new parent.now.meta parent.now.index (draft.now.base + 12) }
    ensures stores { StoresBefore seat.old seat.new (draft.now.base + 12) }
{
    let step = stride(draft.class, draft.last, 0);
    for i in 0..own_headers(step, draft.last, parent.stride) {
        space.store_page(seat, draft.base + HEADER + step * u64::from(i), 0);
    }
}

// How many header cells of a group's slots are its carrier's own. The one behind the last slot is that
// of the carrier's neighbour where the slots reach the carrier's end.
fn own_headers(step: u64, last: u32, room: u64) -> u32
    requires step { 16 ≤ step }
    requires last { last < 32 }
    requires fits { 16 + step * (last + 1) ≤ room }
    ensures { HasHeaders step last room result }
{
    let reach = UNIT + step * u64::from(last + 1);
    if reach == room { last + 1 } else { last + 2 }
}

/// Makes the three cells 0 where a group began that lay in a slot of the seat.
pub fn clear_head<N: Name>(
    space: &Space<N>,
    seat: &mut LockSeat<N>,
    meta: u64,
    index: u32,
    base: u64,
)
    requires whole { base % 16 ≡ 0 }
    requires inside { base + 16 ≤ 4096 * N.facts.start.pages }
    requires slot { HasHead seat.old meta index base }
    ensures view { OnlySlot seat.old meta index seat.new }
    ensures zero { SeesIn seat.new meta index base 0 }
    ensures zero_high { SeesIn seat.new meta index (base + 4) 0 }
    ensures zero_active { SeesIn seat.new meta index (base + 8) 0 }
    ensures stores { StoresBefore seat.old seat.new 0 }
{
    space.store_page(seat, base, 0);
    space.store_page(seat, base + META_HIGH, 0);
    space.store_page(seat, base + ACTIVE, 0);
}
