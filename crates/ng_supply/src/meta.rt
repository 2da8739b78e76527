ghost use Rattle.std.specs.Prelude.{◌≡◌, [], IfErr, IfNone, IfOk, IfSome, OnErr, OnOk};
ghost use Rattle.ng_mapper.specs.Mapping.{NotesNone};
ghost use Rattle.ng_shelf.specs.Stock.{free_of};
ghost use Rattle.ng_supply.specs.Metas.{AddsArea, FindsMeta, IsHeapStock, IsNext};
ghost use Rattle.ng_supply.specs.Runs.{IsHeapMapper, RefusesRun};

use crate::run::map_run;
use ng_build::make_area;
use ng_mapper::Mapper;
use ng_shelf::MetaStock;
use ng_space::{LockSeat, Name, Space};

/// Takes the next meta of the stock. Where there is none, a page is mapped for an area of metas, of
/// which the first is the answer, or else the number of the mapper's refusal.
pub fn find_meta<N: Name, M: Mapper>(
    space: &Space<N>,
    seat: &mut LockSeat<N>,
    mapper: &mut M,
    stock: &mut MetaStock,
) -> Result<u64, u64>
    requires mapper { IsHeapMapper N.facts.start seat.old
        (M.span mapper.old) (M.runs mapper.old) (M.refused mapper.old) }
    requires stock { IsHeapStock N.facts.start seat.old stock.old }
    ensures mapper { IsHeapMapper N.facts.start seat.new
        (M.span mapper.new) (M.runs mapper.new) (M.refused mapper.new) }
    ensures stock { IsHeapStock N.facts.start seat.new stock.new }
    ensures constant { M.span mapper.new ≡ M.span mapper.old }

    ensures ok { IfOk result (λ meta. FindsMeta N.facts.start
        seat.old (M.runs mapper.old) stock.old meta seat.new (M.runs mapper.new) stock.new) }
    ensures calm { OnOk result (NotesNone (M.refused mapper.old) (M.refused mapper.new)) }

    // A page is asked for where the stock is empty, and nowhere else.
    ensures err { IfErr result (λ number. RefusesRun
        seat.old (M.refused mapper.old) (M.refused mapper.new) 1 number seat.new) }
    ensures none { OnErr result (free_of stock.old ≡ []) }
    ensures stock_kept { OnErr result (stock.new ≡ stock.old) }
    ensures runs_kept { OnErr result (M.runs mapper.new ≡ M.runs mapper.old) }
{
    if let Some(meta) = take_next(stock) {
        return Ok(meta);
    }
    add_area(space, seat, mapper, stock)?;
    let Some(meta) = take_next(stock) else {
        unreachable!()
    };
    Ok(meta)
}

// The next meta of the stock, which then has it no more.
fn take_next(stock: &mut MetaStock) -> Option<u64>
    ensures next { IfSome result (λ meta. IsNext stock.old meta stock.new) }
    ensures none { IfNone result (free_of stock.old ≡ []) }
    ensures kept { IfNone result (stock.new ≡ stock.old) }
{
    stock.stand_once();
    stock.take()
}

// Maps a page, makes it an area, and puts its metas in the stock, which is empty. The answer is the
// area's address.
fn add_area<N: Name, M: Mapper>(
    space: &Space<N>,
    seat: &mut LockSeat<N>,
    mapper: &mut M,
    stock: &mut MetaStock,
) -> Result<u64, u64>
    requires mapper { IsHeapMapper N.facts.start seat.old
        (M.span mapper.old) (M.runs mapper.old) (M.refused mapper.old) }
    requires stock { IsHeapStock N.facts.start seat.old stock.old }
    requires none { free_of stock.old ≡ [] }
    ensures mapper { IsHeapMapper N.facts.start seat.new
        (M.span mapper.new) (M.runs mapper.new) (M.refused mapper.new) }
    ensures constant { M.span mapper.new ≡ M.span mapper.old }

    ensures ok { IfOk result (λ addr. AddsArea N.facts.start
        seat.old (M.runs mapper.old) stock.old addr seat.new (M.runs mapper.new) stock.new) }
    ensures stock { OnOk result (IsHeapStock N.facts.start seat.new stock.new) }
    ensures calm { OnOk result (NotesNone (M.refused mapper.old) (M.refused mapper.new)) }

    ensures err { IfErr result (λ number. RefusesRun
        seat.old (M.refused mapper.old) (M.refused mapper.new) 1 number seat.new) }
    ensures stock_kept { OnErr result (stock.new ≡ stock.old) }
    ensures runs_kept { OnErr result (M.runs mapper.new ≡ M.runs mapper.old) }
{
    let addr = map_run(space, seat, mapper, 1)?;
    let before = stock.area();
    make_area(space, seat, addr, before);
    stock.add_area(addr);
    Ok(addr)
}
