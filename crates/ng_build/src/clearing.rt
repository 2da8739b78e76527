// Cells that are made 0 once a group ended.
ghost use Rattle.std.specs.Prelude.{◌≡◌, ◌+◌, ◌*◌, ◌%◌, ◌≤◌};
ghost use Rattle.ng_meta.specs.Place.{IsMetaPlace};
ghost use Rattle.ng_build.specs.Areas.{without_run};
ghost use Rattle.ng_build.specs.Cells.{AreZero, BuildsAll, IsIdleMeta, IsIdleRun, KeepsOutside, OnlyCells, ReadsWithin};

use ng_space::{LockSeat, Name, Space};

/// The cells of a meta.
const META_CELLS: u64 = 10;

/// The cells of a block of a run: so few that the compiler loads each without a loop.
const BLOCK_CELLS: u64 = 8;

/// The blocks of a page.
const PAGE_BLOCKS: u64 = 128;

/// Stores 0 in those of these cells that aren't 0. The seat builds or clears each of them.
pub fn clear_cells<N: Name>(space: &Space<N>, seat: &mut LockSeat<N>, from: u64, cells: u64)
    requires cell { from % 4 ≡ 0 }
    requires inside { from + 4 * cells ≤ 4096 * N.facts.start.pages }
    requires builds { BuildsAll seat.old from (from + 4 * cells) }
    ensures view { OnlyCells seat.old seat.new }
    ensures zero { AreZero seat.new from (from + 4 * cells) }
    ensures kept { KeepsOutside seat.old seat.new from (from + 4 * cells) }
    ensures reads { ReadsWithin seat.old seat.new from (from + 4 * cells) }
{
    for k in 0..cells {
        let addr = from + 4 * k;
        if space.load_seat(seat, addr) != 0 {
            space.store_page(seat, addr, 0);
        }
    }
}

/// Makes the ten cells of a meta 0 that has no live group.
pub fn clear_meta<N: Name>(space: &Space<N>, seat: &mut LockSeat<N>, meta: u64)
    requires place { IsMetaPlace meta N.facts.start.pages }
    requires idle { IsIdleMeta seat.old meta }
    ensures view { OnlyCells seat.old seat.new }
    ensures zero { AreZero seat.new meta (meta + 40) }
    ensures kept { KeepsOutside seat.old seat.new meta (meta + 40) }
    ensures reads { ReadsWithin seat.old seat.new meta (meta + 40) }
{
    clear_cells(space, seat, meta, META_CELLS);
}

/// Makes all cells of a run 0 at which no live group begins, and notes that the run goes.
pub fn drop_run<N: Name>(space: &Space<N>, seat: &mut LockSeat<N>, base: u64, pages: u64)
    requires whole { base % 4096 ≡ 0 }
    requires inside { base + 4096 * pages ≤ 4096 * N.facts.start.pages }
    requires idle { IsIdleRun seat.old base pages }
    ensures view { OnlyCells (without_run seat.old base) seat.new }
    ensures kept { KeepsOutside seat.old seat.new base (base + 4096 * pages) }
    ensures reads { ReadsWithin seat.old seat.new base (base + 4096 * pages) }
{
    clear_pages(space, seat, base, pages);
    space.note_run(seat, base, pages, false);
}

// Makes all cells of these pages 0, as [`clear_cells`] does.
fn clear_pages<N: Name>(space: &Space<N>, seat: &mut LockSeat<N>, base: u64, pages: u64)
    requires whole { base % 4096 ≡ 0 }
    requires inside { base + 4096 * pages ≤ 4096 * N.facts.start.pages }
    requires builds { BuildsAll seat.old base (base + 4096 * pages) }
    ensures view { OnlyCells seat.old seat.new }
    ensures zero { AreZero seat.new base (base + 4096 * pages) }
    ensures kept { KeepsOutside seat.old seat.new base (base + 4096 * pages) }
    ensures reads { ReadsWithin seat.old seat.new base (base + 4096 * pages) }
{
    for k in 0..PAGE_BLOCKS * pages {
        clear_cells(space, seat, base + 4 * BLOCK_CELLS * k, BLOCK_CELLS);
    }
}
