ghost use Rattle.std.specs.Prelude.{◌≤◌, IfSome, IfNone};
ghost use Rattle.ng_mapper.specs.Holes.{whole, IsLowest, HasNoHole};
ghost use Rattle.ng_mapper.specs.InOrder.{AreInOrder, Fits};

/// A free place: its address, and the index of the first run behind it.
#[derive(Clone, Copy)]
pub struct Hole {
    pub at: u64,
    pub next: usize,
}

/// The lowest hole of so many pages, in a space of `size` pages.
pub fn lowest_hole(runs: &[(u64, u64)], size: u32, pages: u64) -> Option<Hole>
    requires size { 1 ≤ size }
    requires ordered { AreInOrder (whole size) runs.now }
    requires pages { 1 ≤ pages }
    ensures fits { IfSome result (λ hole. Fits (whole size) runs.now pages hole.at hole.next) }
    ensures lowest { IfSome result (λ hole. IsLowest (whole size) runs.now pages hole.at) }
    ensures none { IfNone result (HasNoHole (whole size) runs.now pages) }
{
    let mut at = 4096;
    for (next, run) in runs.iter().enumerate() {
        if (run.0 - at) / 4096 >= pages {
            return Some(Hole { at, next });
        }
        at = run.0 + 4096 * run.1;
    }
    if (4096 * u64::from(size) - at) / 4096 >= pages {
        return Some(Hole {
            at,
            next: runs.len(),
        });
    }
    None
}

/// The lowest hole of so many pages. It isn't looked for where too many are asked.
pub fn find_hole(runs: &[(u64, u64)], size: u32, pages: u64, too_many: u64) -> Option<Hole>
    requires size { 1 ≤ size }
    requires ordered { AreInOrder (whole size) runs.now }
    requires pages { 1 ≤ pages }
    requires some { 1 ≤ too_many }
    requires too_many { HasNoHole (whole size) runs.now too_many }
    ensures fits { IfSome result (λ hole. Fits (whole size) runs.now pages hole.at hole.next) }
    ensures lowest { IfSome result (λ hole. IsLowest (whole size) runs.now pages hole.at) }
    ensures none { IfNone result (HasNoHole (whole size) runs.now pages) }
{
    if pages >= too_many {
        return None;
    }
    lowest_hole(runs, size, pages)
}
