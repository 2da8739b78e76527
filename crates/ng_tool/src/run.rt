ghost use Rattle.std.specs.Prelude.{◌≡◌, ◌⊎◌, [], length};
ghost use Rattle.ng_tool.specs.Opened.{IsNamed};
ghost use Rattle.ng_tool.specs.Statuses.{IsLate};
ghost use Rattle.ng_tool.specs.Tool.{Runs, Writes};
ghost use Rattle.ng_plan.specs.Sound.{IsSound};
ghost use Rattle.ng_replay.specs.Books.{rooms_for};
ghost use Rattle.ng_replay.specs.Serving.{IsCapOf, counts_of};
ghost use Rattle.ng_terms.specs.Causes.{Rose};

use crate::closed::Closed;
use crate::ending::ended;
use crate::fresh::Fresh;
use crate::job::Prepared;
use ng_heap::Heap;
use ng_mapper::Mapper;
use ng_mtrace::Sink;
use ng_policy::{Kept, Rules};
use ng_replay::{Room, serial};
use ng_space::Name;
use ng_terms::Host;
use ng_words::Status;
use std::alloc::Global;

/// Does the ops of a plan on a heap of its own, and writes the report. All memory is taken before the first op: where the
/// host has too little, nothing is done, and the mapper comes back as it was.
pub fn run<N: Name, O: Sink, M: Mapper, P: Rules + Drop>(
    alloc: Global,
    prepared: Prepared,
    fresh: Fresh,
    mapper: M,
    policy: P,
    out: &mut O,
) -> (Status, M, Vec<Closed>)
    requires good { P.good policy }
    requires named { IsNamed N.facts (M.span mapper) (M.runs mapper) (M.refused mapper) fresh.blank fresh.tables }
    requires sound { IsSound prepared.plan }
    requires rooms { fresh.blank.rooms ≡ rooms_for prepared.plan }
    requires hands { length prepared.plan.logs ≡ N.facts.hands }
    requires cap { IsCapOf N.facts.start.cap prepared.plan prepared.mode }
    ensures late { (result.0 ≡ Status.Host) ⊎ IsLate result.0 }
    ensures write_fault { result.0 ≡ Status.WriteFault → Rose (O.faults out.old) (O.faults out.new) }
    ensures ends { IsLate result.0 → Writes (Runs prepared.plan prepared.mode prepared.calls_shown (M.span mapper)
        (counts_of (M.refused mapper)) (counts_of (M.refused result.1)) (M.runs result.1) result.2.items)
        (O.written out.old) (O.written out.new) result.0 }
    ensures span { M.span result.1 ≡ M.span mapper }
    ensures nothing { result.0 ≡ Status.Host → O.written out.new ≡ O.written out.old }
    ensures handed_back { result.0 ≡ Status.Host → result.1 ≡ mapper }
    ensures none { result.0 ≡ Status.Host → result.2.items ≡ [] }
{
    let Fresh {
        blank,
        tables,
        closed,
    } = fresh;
    let rules = Kept::new(policy);
    let (heap, mut core, mut hands) = match Heap::<N>::open(alloc, blank, tables, mapper, rules) {
        Ok(parts) => parts,
        Err((mapper, Host)) => return (Status::Host, mapper, closed),
    };
    match Room::for_plan(alloc, &prepared.plan) {
        Ok(room) => {
            let replies = serial(
                &heap,
                &mut core,
                &mut hands,
                &prepared.plan,
                prepared.mode,
                room,
            );
            ended(heap, core, hands, replies, prepared, closed, out)
        }
        Err(Host) => {
            let (_image, _books, mapper) = heap.close(core, hands);
            (Status::Host, mapper, closed)
        }
    }
}
