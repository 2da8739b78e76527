ghost use Rattle.std.specs.Prelude.{◌≡◌, ◌≤◌, [], length, vec_capacity};
ghost use Rattle.ng_tool.specs.Closed.{program_secret};
ghost use Rattle.ng_tool.specs.Opened.{counts_at, span_at};
ghost use Rattle.ng_tool.specs.Statuses.{IsLate};
ghost use Rattle.ng_tool.specs.Tool.{Runs, Writes};
ghost use Rattle.ng_replay.specs.Books.{AreAllFramed, AreBooks};
ghost use Rattle.ng_replay.specs.Serving.{IsCapOf, counts_of};
ghost use Rattle.ng_space.specs.Closings.{IsEven};
ghost use Rattle.ng_terms.specs.Calls.{Fits};
ghost use Rattle.ng_terms.specs.Causes.{Rose};

use crate::closed::Closed;
use crate::job::Prepared;
use ng_group::Core;
use ng_heap::Heap;
use ng_mapper::Mapper;
use ng_mtrace::{Failed, Sink, write_all};
use ng_policy::Rules;
use ng_report::render;
use ng_space::{Hand, Name};
use ng_terms::{Items, Reply};
use ng_words::Status;

/// Closes a heap on which the ops of a plan were done, and writes the report of their replies. It takes no memory.
pub fn ended<N: Name, O: Sink, M: Mapper, P: Rules + Drop>(
    heap: Heap<N>,
    core: Core<N, M, P>,
    hands: Vec<Hand<N>>,
    replies: Vec<Items<Reply>>,
    prepared: Prepared,
    closed: Vec<Closed>,
    out: &mut O,
) -> (Status, M, Vec<Closed>)
    requires secret { N.facts.start.secret ≡ program_secret }
    requires all { length prepared.plan.logs ≡ N.facts.hands }
    requires cap { IsCapOf N.facts.start.cap prepared.plan prepared.mode }
    requires fits { Fits prepared.plan prepared.mode replies.items }
    requires books { AreBooks prepared.plan prepared.mode replies.items hands.items }
    requires framed { AreAllFramed hands.items }
    requires even { IsEven hands.items }
    requires none { closed.items ≡ [] }
    requires one { 1 ≤ vec_capacity closed }
    ensures late { IsLate result.0 }
    ensures write_fault { result.0 ≡ Status.WriteFault → Rose (O.faults out.old) (O.faults out.new) }
    ensures ends { Writes (Runs prepared.plan prepared.mode prepared.calls_shown (span_at N.facts.start)
        (counts_at N.facts) (counts_of (M.refused result.1)) (M.runs result.1) result.2.items)
        (O.written out.old) (O.written out.new) result.0 }
    ensures span { M.span result.1 ≡ span_at N.facts.start }
{
    let (mapper, closed, text) = reported(heap, core, hands, replies, prepared, closed);
    match write_all(out, text.as_slice()) {
        Ok(()) => (Status::Done, mapper, closed),
        Err(Failed) => (Status::WriteFault, mapper, closed),
    }
}

/// Closes the heap and makes the report of the replies.
fn reported<N: Name, M: Mapper, P: Rules + Drop>(
    heap: Heap<N>,
    core: Core<N, M, P>,
    hands: Vec<Hand<N>>,
    replies: Vec<Items<Reply>>,
    prepared: Prepared,
    mut closed: Vec<Closed>,
) -> (M, Vec<Closed>, Vec<u8>)
    requires secret { N.facts.start.secret ≡ program_secret }
    requires all { length prepared.plan.logs ≡ N.facts.hands }
    requires cap { IsCapOf N.facts.start.cap prepared.plan prepared.mode }
    requires fits { Fits prepared.plan prepared.mode replies.items }
    requires books { AreBooks prepared.plan prepared.mode replies.items hands.items }
    requires framed { AreAllFramed hands.items }
    requires even { IsEven hands.items }
    requires none { closed.items ≡ [] }
    requires one { 1 ≤ vec_capacity closed }
    ensures runs { Runs prepared.plan prepared.mode prepared.calls_shown (span_at N.facts.start)
        (counts_at N.facts) (counts_of (M.refused result.0)) (M.runs result.0) result.1.items result.2.items }
    ensures span { M.span result.0 ≡ span_at N.facts.start }
{
    let Prepared {
        plan,
        mode,
        calls_shown,
        mut text,
    } = prepared;
    let (image, books, mapper) = heap.close(core, hands);
    render(
        &plan,
        mode,
        calls_shown,
        replies.as_slice(),
        mapper.live_pages(),
        &mut text,
    );
    closed.push_reserved(Closed {
        image,
        books: Items::from_vec(books),
        replies: Items::from_vec(replies),
    });
    (mapper, closed, text)
}
