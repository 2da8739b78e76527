ghost use Rattle.std.specs.Prelude.{◌≡◌, ◌⊎◌, ℕ, ◌+◌, ◌*◌, ◌%◌, ◌<◌, ◌≤◌, ◌∷◌, ◌++◌, []};
ghost use Rattle.ng_view.specs.Layouts.{IsAreaAt};
ghost use Rattle.ng_view.specs.Notes.{IsClearedRun};
ghost use Rattle.ng_build.specs.Areas.{AreMetasZero, with_area};
ghost use Rattle.ng_build.specs.Cells.{KeepsOutside, OnlyCells};

use ng_meta::METAS;
use ng_space::{LockSeat, Name, Space};

// Of an area: where the high half of its check, its link and the number of its metas stand.
const CHECK_HIGH: u64 = 4;

const LINK: u64 = 8;

const COUNT: u64 = 16;

/// Makes a run of one page an area of metas, whose cells are known to be 0: its check is the heap's
/// secret, and its link the address of the area before, or 0 where it is the first.
pub fn make_area<N: Name>(space: &Space<N>, seat: &mut LockSeat<N>, addr: u64, before: u64)
    requires whole { addr % 4096 ≡ 0 }
    requires inside { addr + 4096 ≤ 4096 * N.facts.start.pages }
    requires run { IsClearedRun seat.old addr 1 }
    requires link { (before ≡ 0) ⊎ IsAreaAt seat.old.desk.layout.runs before }
    requires low { before < 4096 * N.facts.start.pages }
    ensures view { OnlyCells (with_area seat.old addr) seat.new }
    ensures metas { AreMetasZero seat.new addr }
    ensures kept { KeepsOutside seat.old seat.new addr (addr + 4096) }
    ensures reads { (found : ℕ) × (seat.new.readings ≡ seat.old.readings ++ (0, found) ∷ []) }
{
    let secret = space.start().secret;
    space.store_page(seat, addr, (secret & 0xffff_ffff) as u32);
    space.store_page(seat, addr + CHECK_HIGH, (secret >> 32) as u32);
    space.store_page(seat, addr + LINK, before as u32);
    space.store_page(seat, addr + COUNT, METAS);
    space.note_area(seat, addr);
}
