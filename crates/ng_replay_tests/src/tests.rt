// Plans of one log and of two, done over musl's rules and a mapper that gives the lowest runs. The addresses are those that
// `tests/cases` has for the same lines.
ghost use Rattle.std.specs.Prelude.{◌≡◌, ◌≤◌, IfOk, length, sum_by};
ghost use Rattle.ng_plan.specs.Plans.{lines_of};
ghost use Rattle.ng_plan.specs.Sound.{IsSound};
ghost use Rattle.ng_policy.specs.Ask.{AskInRange, IsCount};
ghost use Rattle.ng_replay.specs.Books.{rooms_for};
ghost use Rattle.ng_replay_tests.specs.Tests.{AreParts};

use ng_group::Tables;
use ng_heap::Heap;
use ng_mapper::FirstFit;
use ng_mtrace::{Line, Log, Logs};
use ng_plan::plan;
use ng_policy::{Ask, Kept, Policy, Rules, Spare, musl_count, musl_keep};
use ng_replay::{Room, cap_of, serial};
use ng_space::{Blank, Book, Name, Start};
use ng_terms::{Entry, Items, Mode, Plan, Reply};
use std::alloc::Global;
use std::marker::Brand;
use std::process::Abort;
use std::test::Fail;

const PAGES: u32 = 4096;

// Blocks of the common align, whose bytes aren't set.
pub(crate) const PLAIN: Mode = Mode {
    align: None,
    zero: false,
};

// A log of these lines.
pub(crate) fn log_of(alloc: Global, lines: &[Line]) -> Result<Log, Fail>
    ensures { IfOk result (λ log. log.lines ≡ lines.now) }
{
    Ok(Log {
        lines: Items::from_vec(lines.to_vec(alloc)?),
    })
}

// The plan of logs.
pub(crate) fn plan_of(alloc: Global, logs: Vec<Log>) -> Result<Plan, Fail>
    requires few { length logs.items ≤ 16 }
    requires short { sum_by length (lines_of logs.items) ≤ 1000000 }
    ensures sound { IfOk result IsSound }
    ensures few { IfOk result (λ plan. length plan.logs ≤ 16) }
{
    let logs = Logs {
        logs: Items::from_vec(logs),
    };
    let Ok(plan) = plan(alloc, &logs) else {
        return Err("no memory")?;
    };
    if plan.logs.len() > 16 {
        return Err("more logs than planned")?;
    }
    Ok(plan)
}

// How many entries the book of each log may need.
fn rooms(alloc: Global, plan: &Plan) -> Result<Vec<u64>, Fail>
    ensures few { IfOk result (λ rooms. length rooms.items ≤ 16) }
    ensures rooms { IfOk result (λ rooms. rooms.items ≡ rooms_for plan.now) }
{
    let logs = plan.logs.as_slice();
    if logs.len() > 16 {
        return Err("more logs than planned")?;
    }
    let mut rooms = Vec::with_capacity(alloc, logs.len())?;
    for ops in logs {
        if ops.len() > 100 {
            return Err("more ops than lines")?;
        }
        rooms.push_reserved(2 * ops.len() as u64);
    }
    Ok(rooms)
}

// The memory of a heap with a hand for each log and of its core, and a mapper that refuses no call.
pub(crate) fn parts(
    alloc: Global,
    plan: &Plan,
    mode: Mode,
) -> Result<(Blank, Tables, FirstFit), Fail>
    ensures { IfOk result (λ made. AreParts plan.now mode made.0 made.1 made.2) }
{
    let start = Start {
        pages: u64::from(PAGES),
        lower: 0x1000,
        upper: 0x100_0000,
        secret: 0x0123_4567_89ab_cdef,
        refusals: 0,
        cap: cap_of(plan, mode),
    };
    let rooms = rooms(alloc, plan)?;
    let blank = Blank::new(alloc, start, rooms.as_slice())?;
    let tables = Tables::new(alloc, PAGES)?;
    let mapper = FirstFit::new(alloc, PAGES, Vec::new(alloc))?;
    Ok((blank, tables, mapper))
}

// The choices of musl.
pub(crate) fn count(ask: Ask) -> u32
    requires { AskInRange ask }
    ensures { IsCount ask.class result }
{
    musl_count(ask)
}

pub(crate) fn keep(spare: Spare) -> bool {
    musl_keep(spare)
}

// The replies to the ops of a plan, and the books of its logs.
fn replayed<N: Name, P: Rules + Drop, R: Abort>(
    rt: &R,
    alloc: Global,
    plan: &Plan,
    mode: Mode,
    blank: Blank,
    tables: Tables,
    mapper: FirstFit,
    rules: P,
) -> (Vec<Items<Reply>>, Vec<Book>)
    requires table { blank.table ≡ N.facts.table }
    requires start { blank.start ≡ N.facts.start }
    requires hands { length blank.rooms ≡ N.facts.hands }
    requires most { N.facts.most ≡ 0 }
    requires parts { AreParts plan.now mode blank tables mapper }
    requires good { P.good rules }
    requires sound { IsSound plan.now }
{
    match Heap::<N>::open(alloc, blank, tables, mapper, Kept::new(rules)) {
        Ok((heap, mut core, mut hands)) => {
            let Ok(room) = Room::for_plan(alloc, plan) else {
                panic!(rt; "no memory for the replies")
            };
            let replies = serial(&heap, &mut core, &mut hands, plan, mode, room);
            let (_image, books, _mapper) = heap.close(core, hands);
            (replies, books)
        }
        Err(_) => panic!(rt; "no memory for the heap"),
    }
}

// The replies to the ops of logs, and the books of the logs.
fn done<R: Abort>(
    rt: &R,
    alloc: Global,
    logs: Vec<Log>,
    mode: Mode,
) -> Result<(Vec<Items<Reply>>, Vec<Book>), Fail>
    requires few { length logs.items ≤ 16 }
    requires short { sum_by length (lines_of logs.items) ≤ 1000000 }
{
    let plan = plan_of(alloc, logs)?;
    let (blank, tables, mapper) = parts(alloc, &plan, mode)?;
    let rules = Policy::new(count, keep);
    Ok(replayed::<Brand, _, _>(rt, alloc, &plan, mode, blank, tables, mapper, rules))
}

#[test]
fn a_log_moves_a_block(rt: HostRuntime) -> Result<(), Fail> {
    let alloc = rt.alloc();
    let lines = [
        Line::Make {
            name: 0x10,
            size: 0x14,
        },
        Line::Make {
            name: 0x11,
            size: 0x14,
        },
        Line::Move {
            old: 0x11,
            name: 0x20,
            size: 0x200,
        },
        Line::End { name: 0x10 },
    ];
    let logs = vec![in alloc; log_of(alloc, &lines)?]?;
    let (replies, books) = done(&rt, alloc, logs, PLAIN)?;
    let wanted = [
        Reply::Given { at: 0x2040 },
        Reply::Given { at: 0x2060 },
        Reply::Moved {
            old: 0x2060,
            at: 0x2820,
        },
        Reply::Freed { at: 0x2040 },
    ];
    let calls = [
        give(0x14, 0x2040),
        give(0x14, 0x2060),
        give(0x200, 0x2820),
        Entry::Take { at: 0x2060 },
        Entry::Take { at: 0x2040 },
    ];
    assert_eq!(rt; replies.len(), 1);
    assert_eq!(rt; books.len(), 1);
    assert_eq!(rt; replies[0].as_slice(), wanted.as_slice());
    assert_eq!(rt; books[0].entries(), calls.as_slice());
    Ok(())
}

#[test]
fn a_resized_block_goes_to_another_log(rt: HostRuntime) -> Result<(), Fail> {
    let alloc = rt.alloc();
    let first = [
        Line::Make {
            name: 0x10,
            size: 0x14,
        },
        Line::Move {
            old: 0x10,
            name: 0x20,
            size: 0x14,
        },
    ];
    let second = [
        Line::End { name: 0x20 },
        Line::Make {
            name: 0x20,
            size: 0x14,
        },
    ];
    let logs = vec![in alloc; log_of(alloc, &first)?, log_of(alloc, &second)?]?;
    let (replies, books) = done(&rt, alloc, logs, PLAIN)?;
    let stayed = Reply::Moved {
        old: 0x2040,
        at: 0x2040,
    };
    let resized = Entry::Resize {
        at: 0x2040,
        n: 0x14,
    };
    let taker = [Entry::Take { at: 0x2040 }, give(0x14, 0x2040)];
    assert_eq!(rt; replies.len(), 2);
    assert_eq!(rt; books.len(), 2);
    assert_eq!(rt;
        replies[0].as_slice(),
        [Reply::Given { at: 0x2040 }, stayed].as_slice()
    );
    assert_eq!(rt;
        replies[1].as_slice(),
        [Reply::Freed { at: 0x2040 }, Reply::Given { at: 0x2040 }].as_slice()
    );
    assert_eq!(rt;
        books[0].entries(),
        [give(0x14, 0x2040), resized].as_slice()
    );
    assert_eq!(rt; books[1].entries(), taker.as_slice());
    Ok(())
}

#[test]
fn a_make_is_zeroed_by_the_mode(rt: HostRuntime) -> Result<(), Fail> {
    let alloc = rt.alloc();
    let lines = [Line::Make {
        name: 0x10,
        size: 0x14,
    }];
    let mode = Mode {
        align: None,
        zero: true,
    };
    let logs = vec![in alloc; log_of(alloc, &lines)?]?;
    let (replies, books) = done(&rt, alloc, logs, mode)?;
    assert_eq!(rt; replies.len(), 1);
    assert_eq!(rt; books.len(), 1);
    assert_eq!(rt;
        replies[0].as_slice(),
        [Reply::Given { at: 0x2040 }].as_slice()
    );
    assert_eq!(rt; books[0].entries(), [give(0x14, 0x2040)].as_slice());
    Ok(())
}

#[test]
fn a_make_is_aligned_by_the_mode(rt: HostRuntime) -> Result<(), Fail> {
    let alloc = rt.alloc();
    let lines = [Line::Make {
        name: 0x10,
        size: 0x64,
    }];
    let mode = Mode {
        align: Some(0x20_0000),
        zero: false,
    };
    let logs = vec![in alloc; log_of(alloc, &lines)?]?;
    let (replies, books) = done(&rt, alloc, logs, mode)?;
    let given = Entry::Give {
        n: 0x64,
        align: 0x20_0000,
        at: 0x20_0000,
    };
    assert_eq!(rt; replies.len(), 1);
    assert_eq!(rt; books.len(), 1);
    assert_eq!(rt;
        replies[0].as_slice(),
        [Reply::Given { at: 0x20_0000 }].as_slice()
    );
    assert_eq!(rt; books[0].entries(), [given].as_slice());
    Ok(())
}

// The entry of a block of n bytes that was given there.
pub(crate) fn give(n: u64, at: u64) -> Entry {
    Entry::Give { n, align: 16, at }
}
