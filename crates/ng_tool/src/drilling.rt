// A script done on a heap of its own.
ghost use Rattle.std.specs.Prelude.{◌≡◌, ◌⊎◌, ◌∷◌, ◌≤◌, [], length, vec_capacity};
ghost use Rattle.ng_tool.specs.Closed.{program_secret};
ghost use Rattle.ng_tool.specs.Drill.{Drills, IsDone};
ghost use Rattle.ng_tool.specs.Opened.{counts_at, span_at, IsNamed};
ghost use Rattle.ng_tool.specs.Statuses.{IsLate};
ghost use Rattle.ng_tool.specs.Tool.{Writes};
ghost use Rattle.ng_drill.specs.Caps.{IsCapOf};
ghost use Rattle.ng_drill.specs.Transcripts.{IsTranscript};
ghost use Rattle.ng_replay.specs.Serving.{counts_of};
ghost use Rattle.ng_script.specs.Reads.{IsWithinLimits};
ghost use Rattle.ng_terms.specs.Causes.{Rose};

use crate::closed::Closed;
use crate::fresh::Fresh;
use crate::job::PreparedScript;
use ng_drill::{Answer, Room, drill, render};
use ng_group::Core;
use ng_heap::Heap;
use ng_mapper::Mapper;
use ng_mtrace::{Failed, Sink, write_all};
use ng_policy::{Kept, Rules};
use ng_space::{Hand, Name};
use ng_terms::{Host, Items};
use ng_words::Status;
use std::alloc::Global;

/// Does a script on a heap of its own, and writes the transcript. All memory is taken before the first command: where the host
/// has too little, nothing is done, and the mapper comes back as it was.
pub fn run_script<N: Name, O: Sink, M: Mapper, P: Rules + Drop>(
    alloc: Global,
    prepared: PreparedScript,
    fresh: Fresh,
    mapper: M,
    policy: P,
    out: &mut O,
) -> (Status, M, Vec<Closed>)
    requires good { P.good policy }
    requires named { IsNamed N.facts (M.span mapper) (M.runs mapper) (M.refused mapper) fresh.blank fresh.tables }
    requires limits { IsWithinLimits prepared.script }
    requires rooms { fresh.blank.rooms ≡ length prepared.script.commands ∷ [] }
    requires hands { N.facts.hands ≡ 1 }
    requires cap { IsCapOf prepared.script.commands N.facts.start.cap }
    ensures late { (result.0 ≡ Status.Host) ⊎ IsLate result.0 }
    ensures write_fault { result.0 ≡ Status.WriteFault → Rose (O.faults out.old) (O.faults out.new) }
    ensures ends { IsLate result.0 → Writes (Drills prepared.script (M.span mapper)
        (counts_of (M.refused mapper)) (counts_of (M.refused result.1)) (M.runs result.1) result.2.items)
        (O.written out.old) (O.written out.new) result.0 }
    ensures span { M.span result.1 ≡ M.span mapper }
    ensures nothing { result.0 ≡ Status.Host → O.written out.new ≡ O.written out.old }
    ensures handed_back { result.0 ≡ Status.Host → result.1 ≡ mapper }
    ensures none { result.0 ≡ Status.Host → result.2.items ≡ [] }
{
    let Fresh {
        blank,
        tables,
        closed,
    } = fresh;
    let Ok(room) = Room::for_script(alloc, &prepared.script, mapper.pages()) else {
        return (Status::Host, mapper, closed);
    };
    let rules = Kept::new(policy);
    let (heap, mut core, mut hands) = match Heap::<N>::open(alloc, blank, tables, mapper, rules) {
        Ok(parts) => parts,
        Err((mapper, Host)) => {
            room.end();
            return (Status::Host, mapper, closed);
        }
    };
    let answers = drill(&heap, &mut core, &mut hands[0], &prepared.script, room);
    ended(alloc, heap, core, hands, answers, prepared, closed, out)
}

/// Closes the heap on which the script was done, and writes the transcript. It takes no memory.
fn ended<N: Name, O: Sink, M: Mapper, P: Rules + Drop>(
    alloc: Global,
    heap: Heap<N>,
    core: Core<N, M, P>,
    hands: Vec<Hand<N>>,
    answers: Items<Answer>,
    prepared: PreparedScript,
    closed: Vec<Closed>,
    out: &mut O,
) -> (Status, M, Vec<Closed>)
    requires secret { N.facts.start.secret ≡ program_secret }
    requires hands { N.facts.hands ≡ 1 }
    requires cap { IsCapOf prepared.script.commands N.facts.start.cap }
    requires done { IsDone N.facts.start.pages prepared.script answers hands.items }
    requires none { closed.items ≡ [] }
    requires room { 1 ≤ vec_capacity closed }
    ensures late { IsLate result.0 }
    ensures write_fault { result.0 ≡ Status.WriteFault → Rose (O.faults out.old) (O.faults out.new) }
    ensures ends { Writes (Drills prepared.script (span_at N.facts.start)
        (counts_at N.facts) (counts_of (M.refused result.1)) (M.runs result.1) result.2.items)
        (O.written out.old) (O.written out.new) result.0 }
    ensures span { M.span result.1 ≡ span_at N.facts.start }
{
    let (mapper, closed, text) = transcribed(alloc, heap, core, hands, answers, prepared, closed);
    match write_all(out, text.as_slice()) {
        Ok(()) => (Status::Done, mapper, closed),
        Err(Failed) => (Status::WriteFault, mapper, closed),
    }
}

/// Closes the heap on which the script was done, and makes the transcript of the answers.
fn transcribed<N: Name, M: Mapper, P: Rules + Drop>(
    alloc: Global,
    heap: Heap<N>,
    core: Core<N, M, P>,
    hands: Vec<Hand<N>>,
    answers: Items<Answer>,
    prepared: PreparedScript,
    mut closed: Vec<Closed>,
) -> (M, Vec<Closed>, Vec<u8>)
    requires secret { N.facts.start.secret ≡ program_secret }
    requires hands { N.facts.hands ≡ 1 }
    requires cap { IsCapOf prepared.script.commands N.facts.start.cap }
    requires done { IsDone N.facts.start.pages prepared.script answers hands.items }
    requires none { closed.items ≡ [] }
    requires room { 1 ≤ vec_capacity closed }
    ensures runs { Drills prepared.script (span_at N.facts.start)
        (counts_at N.facts) (counts_of (M.refused result.0)) (M.runs result.0) result.1.items result.2.items }
    ensures span { M.span result.0 ≡ span_at N.facts.start }
{
    let PreparedScript { script, mut text } = prepared;
    let (image, books, mapper) = heap.close(core, hands);
    render(answers.as_slice(), &mut text);
    drop(script);
    closed.push_reserved(Closed {
        image,
        books: Items::from_vec(books),
        replies: Items::new(alloc),
    });
    (mapper, closed, text)
}
