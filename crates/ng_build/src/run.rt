ghost use Rattle.std.specs.Prelude.{◌≡◌, ◌+◌, ◌*◌, ◌%◌, ◌≤◌};
ghost use Rattle.ng_meta.specs.Place.{IsMetaPlace};
ghost use Rattle.ng_view.specs.Conditions.{Sees};
ghost use Rattle.ng_view.specs.Groups.{MayPublish, Publishes};
ghost use Rattle.ng_view.specs.Notes.{IsClearedRun};
ghost use Rattle.ng_build.specs.Drafts.{FitsRun, IsBlankMeta, IsCounted, avail_of, draft_group};
ghost use Rattle.ng_build.specs.Runs.{AreHeadersZero, IsMetaOutside, PublishesRun};

use crate::draft::{Draft, write_meta};
use ng_meta::ACTIVE;
use ng_space::{LockSeat, Name, Space};

/// Builds a group on a run whose cells are known to be 0, and makes it live. Its slot 0 is in the
/// seat, in motion.
pub fn publish_run<N: Name>(space: &Space<N>, seat: &mut LockSeat<N>, draft: &Draft)
    requires place { IsMetaPlace draft.now.meta N.facts.start.pages }
    requires meta { IsBlankMeta seat.old draft.now.meta }
    requires whole { draft.now.base % 4096 ≡ 0 }
    requires some { 1 ≤ draft.now.maplen }
    requires inside { draft.now.base + 4096 * draft.now.maplen ≤ 4096 * N.facts.start.pages }
    requires run { IsClearedRun seat.old draft.now.base draft.now.maplen }
    requires apart { IsMetaOutside draft.now.meta draft.now.base (draft.now.base + 4096 * draft.now.maplen) }
    requires counted { IsCounted draft.now }
    requires shape { FitsRun (draft_group draft.now) }
    ensures { PublishesRun seat.old (draft_group draft.now) draft.now.active seat.new }
{
    space.store_page(seat, draft.base, draft.meta as u32);
    space.store_page(seat, draft.base + ACTIVE, draft.active);
    write_meta(space, seat, draft);
    publish_mapped(space, seat, draft);
}

/// Makes a group live that is written on its run, whose active index is known, and that its slots' headers are 0: a
/// group that lives on a run began with these.
pub fn publish_mapped<N: Name>(space: &Space<N>, seat: &mut LockSeat<N>, draft: &Draft)
    requires place { IsMetaPlace draft.now.meta N.facts.start.pages }
    requires counted { IsCounted draft.now }
    requires built { MayPublish seat.old draft.now.meta draft.now.class (avail_of draft.now.active) }
    requires index { Sees seat.old (draft.now.base + 8) draft.now.active }
    requires lows { AreHeadersZero seat.old (draft_group draft.now) }
    ensures { Publishes seat.old draft.now.meta draft.now.class (avail_of draft.now.active) seat.new }
{
    space.publish(seat, draft.meta, draft.class, draft.avail());
}
