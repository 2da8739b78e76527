ghost use Rattle.std.specs.Prelude.{◌≡◌, ◌+◌, ◌*◌, ◌%◌, ◌^◌, ◌<◌, ◌≤◌};
ghost use Rattle.ng_meta.specs.Place.{IsMetaPlace};
ghost use Rattle.ng_build.specs.Cells.{IsIdleMeta};
ghost use Rattle.ng_build.specs.Drafts.{IsCounted, avail_of};
ghost use Rattle.ng_build.specs.Written.{flags_of, freed_of, with_meta};

use ng_class::all_bits;
use ng_meta::{FLAGS, FREED, Fields, MEM, cells_of};
use ng_space::{LockSeat, Name, Space};

/// A group that is to be built. Its slot 0 is the one that it is built for.
#[derive(Clone, Copy, Debug, PartialEq, Eq)]
pub struct Draft {
    /// The address of its meta.
    pub meta: u64,
    /// The address at which it begins.
    pub base: u64,
    /// Its class: below 48, or 63 for a group that is one block.
    pub class: u32,
    /// The index of its last slot, below 32.
    pub last: u32,
    /// The pages of its run; 0 for a group in a slot.
    pub maplen: u64,
    /// The highest index of the slots that are in use from the start.
    pub active: u32,
}

impl Draft {
    // The slots in use from the start, but for slot 0.
    pub(crate) fn avail(&self) -> u32
        requires counted { IsCounted self.now }
        ensures { result ≡ avail_of self.now.active }
    {
        all_bits(self.active) - 1
    }

    // The slots that come into use later.
    pub(crate) fn freed(&self) -> u32
        requires counted { IsCounted self.now }
        ensures { result ≡ freed_of self.now.active self.now.last }
    {
        all_bits(self.last) - all_bits(self.active)
    }

    // The low cell of the flags. The high one is 0.
    pub(crate) fn flags(&self) -> u32
        requires last { self.now.last < 32 }
        requires class { self.now.class < 64 }
        requires maplen { self.now.maplen < 2 ^ 20 }
        ensures { result ≡ flags_of self.now }
    {
        let fields = Fields {
            last: self.last,
            freeable: true,
            class: self.class,
            maplen: self.maplen,
        };
        cells_of(fields).0
    }
}

// The cells of a meta whose other cells stay 0.
pub(crate) fn write_meta<N: Name>(space: &Space<N>, seat: &mut LockSeat<N>, draft: &Draft)
    requires place { IsMetaPlace draft.now.meta N.facts.start.pages }
    requires idle { IsIdleMeta seat.old draft.now.meta }
    requires counted { IsCounted draft.now }
    requires class { draft.now.class < 64 }
    requires maplen { draft.now.maplen < 2 ^ 20 }
    requires low { draft.now.base < 2 ^ 32 }
    ensures { seat.new ≡ with_meta seat.old draft.now }
{
    space.store_page(seat, draft.meta + MEM, draft.base as u32);
    space.store_page(seat, draft.meta + FREED, draft.freed());
    space.store_page(seat, draft.meta + FLAGS, draft.flags());
}
