// Plans of two logs, done by threads.
ghost use Rattle.std.specs.Prelude.{◌≡◌, ◌≤◌, length};
ghost use Rattle.ng_plan.specs.Sound.{IsSound};
ghost use Rattle.ng_replay_tests.specs.Tests.{AreParts};

use crate::tests::{PLAIN, count, keep, log_of, parts, plan_of};
use ng_group::Tables;
use ng_heap::{Heap, SharedHeap};
use ng_mapper::FirstFit;
use ng_mtrace::Line;
use ng_policy::{Kept, Policy, Rules};
use ng_replay::{Crew, Gate, Open, threads};
use ng_space::{Blank, Book, Name};
use ng_terms::{Items, Mode, Plan, Reply};
use std::alloc::Global;
use std::marker::Brand;
use std::process::Abort;
use std::sync::Wait;
use std::sync::atomic::{AtomicU32, Ordering};
use std::test::Fail;
use std::thread::{Threads, yield_now};

// The replies to the ops of a plan, and the books of its logs.
fn replayed<
    N: Name + Send + Sync,
    P: Rules + Send + Drop,
    G: Gate + Sync,
    R: Threads + Wait + Sync + Abort,
>(
    rt: &R,
    alloc: Global,
    plan: &Plan,
    mode: Mode,
    blank: Blank,
    tables: Tables,
    mapper: FirstFit,
    rules: P,
    gate: &G,
) -> (Vec<Items<Reply>>, Vec<Book>)
    requires table { blank.table ≡ N.facts.table }
    requires start { blank.start ≡ N.facts.start }
    requires hands { length blank.rooms ≡ N.facts.hands }
    requires most { N.facts.most ≡ 0 }
    requires parts { AreParts plan.now mode blank tables mapper }
    requires few { length plan.now.logs ≤ 16 }
    requires good { P.good rules }
    requires sound { IsSound plan.now }
{
    let Ok((boxes, doors)) = ng_post::open(alloc, plan) else {
        panic!(rt; "no memory for the boxes")
    };
    let Ok((heap, core, hands)) = Heap::<N>::open(alloc, blank, tables, mapper, Kept::new(rules))
    else {
        panic!(rt; "no memory for the heap")
    };
    let Ok(crew) = Crew::open(alloc, plan, hands, doors) else {
        panic!(rt; "no memory for the crew")
    };
    let shared = SharedHeap::new(heap, core);
    let (hands, replies) = threads(rt, &shared, boxes, crew, plan, mode, gate);
    let (heap, core) = shared.parts();
    let (_image, books, _mapper) = heap.close(core, hands);
    (replies, books)
}

#[test]
fn a_moved_block_goes_to_another_thread(rt: HostRuntime) -> Result<(), Fail> {
    let alloc = rt.alloc();
    let first = [
        Line::Make {
            name: 0x10,
            size: 0x14,
        },
        Line::Move {
            old: 0x10,
            name: 0x20,
            size: 0x200,
        },
    ];
    let second = [
        Line::End { name: 0x20 },
        Line::Make {
            name: 0x20,
            size: 0x14,
        },
    ];
    let logs = vec![in alloc; log_of(alloc, &first)?, log_of(alloc, &second)?]?;
    let plan = plan_of(alloc, logs)?;
    let (blank, tables, mapper) = parts(alloc, &plan, PLAIN)?;
    let rules = Policy::new(count, keep);
    let (replies, books) = replayed::<Brand, _, _, _>(
        &rt, alloc, &plan, PLAIN, blank, tables, mapper, rules, &Open,
    );
    assert_eq!(rt; replies.len(), 2);
    assert_eq!(rt; given_and_freed(replies[0].as_slice()), (1, 0));
    assert_eq!(rt; given_and_freed(replies[1].as_slice()), (1, 1));
    assert_eq!(rt;
        freed_at(replies[1].as_slice()),
        moved_to(replies[0].as_slice())
    );
    assert_eq!(rt; books.len(), 2);
    assert_eq!(rt; books[0].entries().len(), 3);
    assert_eq!(rt; books[1].entries().len(), 2);
    Ok(())
}

// How many blocks were given, and how many were freed.
fn given_and_freed(replies: &[Reply]) -> (usize, usize) {
    let given = replies
        .iter()
        .filter(|reply| matches!(reply, Reply::Given { at: _ }))
        .count();
    let freed = replies
        .iter()
        .filter(|reply| matches!(reply, Reply::Freed { at: _ }))
        .count();
    (given, freed)
}

// Where the second op's block came to lie.
fn moved_to(replies: &[Reply]) -> Option<u64> {
    match replies.get(1) {
        Some(Reply::Moved { old: _, at }) => Some(*at),
        _ => None,
    }
}

// Where the first op's block was freed.
fn freed_at(replies: &[Reply]) -> Option<u64> {
    match replies.get(0) {
        Some(Reply::Freed { at }) => Some(*at),
        _ => None,
    }
}

// Holds the first log's second op until the second log's first is answered, for so many turns at most.
#[derive(Drop)]
struct Held {
    answered: AtomicU32,
    late: AtomicU32,
}

const TURNS: u32 = 10_000_000;

impl Gate for Held {
    fn enter(&self, log: u32, call: u32) {
        if log != 1 || call != 2 {
            return;
        }
        for _turn in 0..TURNS {
            if self.answered.load(Ordering::SeqCst) == 1 {
                return;
            }
            yield_now();
        }
        self.late.store(1, Ordering::SeqCst);
    }

    fn answered(&self, log: u32, call: u32) {
        if log == 2 && call == 1 {
            self.answered.store(1, Ordering::SeqCst);
        }
    }
}

#[test]
fn two_logs_go_beside_each_other(rt: HostRuntime) -> Result<(), Fail> {
    let alloc = rt.alloc();
    let first = [
        Line::Make {
            name: 0x10,
            size: 0x14,
        },
        Line::Make {
            name: 0x11,
            size: 0x14,
        },
    ];
    let second = [
        Line::Make {
            name: 0x20,
            size: 0x14,
        },
        Line::Make {
            name: 0x21,
            size: 0x14,
        },
    ];
    let logs = vec![in alloc; log_of(alloc, &first)?, log_of(alloc, &second)?]?;
    let plan = plan_of(alloc, logs)?;
    let (blank, tables, mapper) = parts(alloc, &plan, PLAIN)?;
    let rules = Policy::new(count, keep);
    let gate = Held {
        answered: AtomicU32::new(0),
        late: AtomicU32::new(0),
    };
    let (replies, _books) = replayed::<Brand, _, _, _>(
        &rt, alloc, &plan, PLAIN, blank, tables, mapper, rules, &gate,
    );
    assert_eq!(rt; gate.late.load(Ordering::SeqCst), 0);
    assert_eq!(rt; replies.len(), 2);
    assert_eq!(rt; given_and_freed(replies[0].as_slice()), (2, 0));
    assert_eq!(rt; given_and_freed(replies[1].as_slice()), (2, 0));
    Ok(())
}
