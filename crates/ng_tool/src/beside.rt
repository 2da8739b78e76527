ghost use Rattle.std.specs.Prelude.{◌≡◌, ◌⊎◌, [], length};
ghost use Rattle.ng_tool.specs.Opened.{IsNamed};
ghost use Rattle.ng_tool.specs.Statuses.{IsLate};
ghost use Rattle.ng_tool.specs.Tool.{Runs, Writes};
ghost use Rattle.ng_plan.specs.Sound.{IsSound};
ghost use Rattle.ng_replay.specs.Books.{rooms_for};
ghost use Rattle.ng_replay.specs.Serving.{IsCapOf, counts_of};
ghost use Rattle.ng_terms.specs.Causes.{Rose};

use crate::closed::Closed;
use crate::ending::ended;
use crate::fresh::Fresh;
use crate::job::Prepared;
use ng_heap::{Heap, SharedHeap};
use ng_mapper::Mapper;
use ng_mtrace::Sink;
use ng_policy::{Kept, Rules};
use ng_replay::{Crew, Gate, threads};
use ng_space::Name;
use ng_terms::Host;
use ng_words::Status;
use std::alloc::Global;
use std::sync::Wait;
use std::thread::Threads;

/// Does the ops of a plan on a heap of its own, those of each log by a worker of its own, and writes the report. All memory is
/// taken before the first op: where the host has too little, nothing is done, and the mapper comes back as it was.
pub fn run_beside<
    R: Threads + Wait + Sync,
    N: Name + Send + Sync,
    O: Sink,
    M: Mapper + Send,
    P: Rules + Send + Drop,
    G: Gate + Sync,
>(
    rt: &R,
    alloc: Global,
    prepared: Prepared,
    fresh: Fresh,
    mapper: M,
    policy: P,
    out: &mut O,
    gate: &G,
) -> (Status, M, Vec<Closed>)
    requires good { P.good policy }
    requires named { IsNamed N.facts (M.span mapper) (M.runs mapper) (M.refused mapper) fresh.blank fresh.tables }
    requires sound { IsSound prepared.plan }
    requires rooms { fresh.blank.rooms ≡ rooms_for prepared.plan }
    requires hands { length prepared.plan.logs ≡ N.facts.hands }
    requires cap { IsCapOf N.facts.start.cap prepared.plan prepared.mode }
    ensures late { (result.0 ≡ Status.Host) ⊎ IsLate result.0 }
    ensures write_fault { result.0 ≡ Status.WriteFault → Rose (O.faults out.old) (O.faults out.new) }
    ensures ends { IsLate result.0 → Writes (Runs prepared.plan prepared.mode prepared.calls_shown (M.span mapper)
        (counts_of (M.refused mapper)) (counts_of (M.refused result.1)) (M.runs result.1) result.2.items)
        (O.written out.old) (O.written out.new) result.0 }
    ensures span { M.span result.1 ≡ M.span mapper }
    ensures nothing { result.0 ≡ Status.Host → O.written out.new ≡ O.written out.old }
    ensures handed_back { result.0 ≡ Status.Host → result.1 ≡ mapper }
    ensures none { result.0 ≡ Status.Host → result.2.items ≡ [] }
{
    let Fresh {
        blank,
        tables,
        closed,
    } = fresh;
    let (boxes, doors) = match ng_post::open(alloc, &prepared.plan) {
        Ok(opened) => opened,
        Err(Host) => return (Status::Host, mapper, closed),
    };
    let rules = Kept::new(policy);
    let (heap, core, hands) = match Heap::<N>::open(alloc, blank, tables, mapper, rules) {
        Ok(parts) => parts,
        Err((mapper, Host)) => return (Status::Host, mapper, closed),
    };
    match Crew::open(alloc, &prepared.plan, hands, doors) {
        Ok(crew) => {
            let shared = SharedHeap::new(heap, core);
            let (hands, replies) = threads(
                rt,
                &shared,
                boxes,
                crew,
                &prepared.plan,
                prepared.mode,
                gate,
            );
            let (heap, core) = shared.parts();
            ended(heap, core, hands, replies, prepared, closed, out)
        }
        Err((hands, Host)) => {
            let (_image, _books, mapper) = heap.close(core, hands);
            (Status::Host, mapper, closed)
        }
    }
}
