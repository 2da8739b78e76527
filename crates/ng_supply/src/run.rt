ghost use Rattle.std.specs.Prelude.{◌≡◌, ◌≤◌, IfErr, IfOk, OnErr, OnOk};
ghost use Rattle.ng_mapper.specs.Mapping.{NotesNone};
ghost use Rattle.ng_mapper.specs.Runs.{AddsRun};
ghost use Rattle.ng_supply.specs.Runs.{IsHeapMapper, MapsRun, RefusesRun};

use ng_mapper::Mapper;
use ng_space::{LockSeat, Name, Space};

/// Maps a run of so many pages and notes that it came, or notes that the mapper refused it: the seat
/// then has the excuse. A refusal is answered by its number.
pub fn map_run<N: Name, M: Mapper>(
    space: &Space<N>,
    seat: &mut LockSeat<N>,
    mapper: &mut M,
    pages: u64,
) -> Result<u64, u64>
    requires pages { 1 ≤ pages }
    requires mapper { IsHeapMapper N.facts.start seat.old
        (M.span mapper.old) (M.runs mapper.old) (M.refused mapper.old) }
    ensures mapper { IsHeapMapper N.facts.start seat.new
        (M.span mapper.new) (M.runs mapper.new) (M.refused mapper.new) }
    ensures constant { M.span mapper.new ≡ M.span mapper.old }

    ensures ok { IfOk result (λ addr. MapsRun N.facts.start seat.old addr pages seat.new) }
    ensures mapped { IfOk result (λ addr.
        AddsRun (M.runs mapper.old) (M.runs mapper.new) (addr, pages)) }
    ensures calm { OnOk result (NotesNone (M.refused mapper.old) (M.refused mapper.new)) }

    ensures err { IfErr result (λ number. RefusesRun
        seat.old (M.refused mapper.old) (M.refused mapper.new) pages number seat.new) }
    ensures kept { OnErr result (M.runs mapper.new ≡ M.runs mapper.old) }
{
    match mapper.map(pages) {
        Ok(addr) => {
            space.note_run(seat, addr, pages, true);
            Ok(addr)
        }
        Err(refused) => {
            space.note_refusal(seat, refused.number);
            Err(refused.number)
        }
    }
}
