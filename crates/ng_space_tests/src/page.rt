// An area, and a group that begins the page behind it, as each test makes and ends them.
ghost use Rattle.std.specs.Prelude.{◌≡◌, ◌+◌, ◌*◌, ◌%◌, ◌≤◌, ◌∷◌, []};
ghost use Rattle.ng_view.specs.Groups.{HasAllSlots};
ghost use Rattle.ng_space_tests.specs.Trials.{AreMetasBlank, BuildsAll, FillsPage, IsBuilt, IsCleared, Stands, StandsAlone, area_run, page_group, trial_start};

use ng_space::{LockSeat, Name, Space, Start};

pub(crate) const AREA: u64 = 0x1000;

/// The first meta of the area.
pub(crate) const META: u64 = 0x1018;

/// Where the group's page begins.
pub(crate) const BASE: u64 = 0x2000;

pub(crate) fn start() -> Start
    ensures { result ≡ trial_start }
{
    Start {
        pages: 16,
        lower: 0x1000,
        upper: 0x1_0000,
        secret: 0x0123_4567_89ab_cdef,
        refusals: 0,
        cap: 0,
    }
}

pub(crate) fn make_area<N: Name>(space: &Space<N>, seat: &mut LockSeat<N>)
    requires start { N.facts.start ≡ trial_start }
    requires fresh { Stands seat.old [] [] }
    ensures stands { Stands seat.new (area_run ∷ []) [] }
    ensures metas { AreMetasBlank seat.new 0 }
{
    space.note_run(seat, AREA, 1, true);
    space.store_page(seat, AREA, 0x89ab_cdef);
    space.store_page(seat, AREA + 4, 0x0123_4567);
    space.store_page(seat, AREA + 16, 101);
    space.note_area(seat, AREA);
}

// The group is live then, with these slots in its avail mask.
pub(crate) fn build_group<N: Name>(
    space: &Space<N>,
    seat: &mut LockSeat<N>,
    class: u32,
    last: u32,
    mask: u32,
)
    requires start { N.facts.start ≡ trial_start }
    requires stands { Stands seat.old (area_run ∷ []) [] }
    requires metas { AreMetasBlank seat.old 0 }
    requires fills { FillsPage class last mask }
    ensures { IsBuilt seat.new (page_group class last) mask }
{
    space.note_run(seat, BASE, 1, true);
    space.store_page(seat, BASE, META as u32);
    space.store_page(seat, META + 16, BASE as u32);
    // The last index, freeable, the class, and one page.
    space.store_page(seat, META + 32, last + 32 + class * 64 + 4096);
    space.publish(seat, META, class, mask);
}

// The group ends, whose slots are all in motion, and so does its run.
pub(crate) fn end_group<N: Name>(space: &Space<N>, seat: &mut LockSeat<N>)
    requires start { N.facts.start ≡ trial_start }
    requires stands { StandsAlone seat.old }
    requires metas { AreMetasBlank seat.old 1 }
    requires slots { HasAllSlots seat.old 4120 }
    ensures stands { Stands seat.new (area_run ∷ []) [] }
    ensures metas { AreMetasBlank seat.new 0 }
{
    space.retire(seat, META);
    clear(space, seat, META, 10);
    clear(space, seat, BASE, 1024);
    space.note_run(seat, BASE, 1, false);
}

// Stores 0 where there is another number.
pub(crate) fn clear<N: Name>(space: &Space<N>, seat: &mut LockSeat<N>, from: u64, cells: u64)
    requires start { N.facts.start ≡ trial_start }
    requires cell { from % 4 ≡ 0 }
    requires inside { from + 4 * cells ≤ 65536 }
    requires builds { BuildsAll seat.old from cells }
    ensures { IsCleared seat.old from cells seat.new }
{
    for k in 0..cells {
        let addr = from + 4 * k;
        if space.load_seat(seat, addr) != 0 {
            space.store_page(seat, addr, 0);
        }
    }
}
