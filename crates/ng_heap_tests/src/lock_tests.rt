// A call of one hand, while a map call of the other's is held under the lock.
ghost use Rattle.std.specs.Prelude.{◌≡◌, ◌+◌, ◌≤◌, ◌∷◌, [], length};
ghost use Rattle.ng_group.specs.Hands.{IsApart};
ghost use Rattle.ng_group.specs.Tests.{AreParts};
ghost use Rattle.ng_heap.specs.Keeps.{IsFresh};
ghost use Rattle.ng_space.specs.Blocks.{BlockToken, HasBlock};
ghost use Rattle.ng_space.specs.Tests.{HasEntered};
ghost use Rattle.ng_terms.specs.Heap.{large};

use crate::shared_tests::two_hands;
use crate::tests::{count, keep, parts_for};
use ng_group::Tables;
use ng_heap::{Heap, SharedHeap};
use ng_mapper::{FirstFit, Mapper, Refused};
use ng_policy::{Kept, Policy, Rules};
use ng_space::{Blank, Block, Hand, Name};
use std::alloc::Global;
use std::marker::Brand;
use std::process::Abort;
use std::sync::Wait;
use std::sync::atomic::{AtomicU32, Ordering};
use std::test::Fail;
use std::thread::{Threads, join, yield_now};

const TURNS: u32 = 10_000_000;

// What the two hands' threads tell each other, each 0 at first and 1 from then on.
#[derive(Drop)]
pub(crate) struct Signals {
    // The second hand is ready, and the next map call is to be held.
    pub(crate) armed: AtomicU32,
    // It is held.
    pub(crate) began: AtomicU32,
    // The second hand's call is back.
    returned: AtomicU32,
    // Someone waited for a word in vain.
    pub(crate) late: AtomicU32,
}

impl Signals {
    pub(crate) fn new() -> Signals {
        Signals {
            armed: AtomicU32::new(0),
            began: AtomicU32::new(0),
            returned: AtomicU32::new(0),
            late: AtomicU32::new(0),
        }
    }

    // Waits until the word is 1, for so many turns at most.
    pub(crate) fn wait_for(&self, word: &AtomicU32) {
        for _turn in 0..TURNS {
            if word.load(Ordering::SeqCst) == 1 {
                return;
            }
            yield_now();
        }
        self.late.store(1, Ordering::SeqCst);
    }

    // Holds a map call until the second hand's call is back, if it is to be held.
    fn hold(&self) {
        if self.armed.load(Ordering::SeqCst) == 1 {
            self.began.store(1, Ordering::SeqCst);
            self.wait_for(&self.returned);
        }
    }
}

// A mapper whose map calls may be held.
#[derive(Drop)]
struct Holding<'a, M> {
    inner: M,
    signals: &'a Signals,
}

impl<'a, M: Mapper> Mapper for Holding<'a, M> {
    ghost runs = { λ mapper. M.runs mapper.inner };

    ghost span = { λ mapper. M.span mapper.inner };

    ghost refused = { λ mapper. M.refused mapper.inner };

    fn pages(&self) -> u32 {
        self.inner.pages()
    }

    fn bounds(&self) -> (u64, u64) {
        self.inner.bounds()
    }

    fn map(&mut self, pages: u64) -> Result<u64, Refused> {
        self.signals.hold();
        self.inner.map(pages)
    }

    fn unmap(&mut self, addr: u64, pages: u64) {
        self.inner.unmap(addr, pages);
    }

    fn refusals(&self) -> u64 {
        self.inner.refusals()
    }

    fn live_pages(&self) -> u64 {
        self.inner.live_pages()
    }

    fn run_at(&self, addr: u64) -> Option<u64> {
        self.inner.run_at(addr)
    }

    ghost bounded = { λ mapper. M.bounded mapper.inner };

    ghost laid = { λ mapper. M.laid mapper.inner };
}

// What the second hand does while the map call is held.
#[derive(Clone, Copy)]
enum Call {
    Free,
    Malloc,
}

#[test]
fn a_free_returns_while_a_map_call_is_held(rt: HostRuntime) -> Result<(), Fail> {
    let alloc = rt.alloc();
    let (blank, tables, mapper) = parts_for(alloc, &[8, 8])?;
    let rules = Policy::new(count, keep);
    call_beside::<Brand, _, _>(&rt, alloc, blank, tables, mapper, rules, Call::Free)
}

#[test]
fn a_malloc_returns_while_a_map_call_is_held(rt: HostRuntime) -> Result<(), Fail> {
    let alloc = rt.alloc();
    let (blank, tables, mapper) = parts_for(alloc, &[8, 8])?;
    let rules = Policy::new(count, keep);
    call_beside::<Brand, _, _>(&rt, alloc, blank, tables, mapper, rules, Call::Malloc)
}

fn call_beside<N: Name + Send + Sync, P: Rules + Send + Drop, R: Threads + Wait + Abort + Sync>(
    rt: &R,
    alloc: Global,
    blank: Blank,
    tables: Tables,
    mapper: FirstFit,
    rules: P,
    call: Call,
) -> Result<(), Fail>
    requires table { blank.table ≡ N.facts.table }
    requires start { blank.start ≡ N.facts.start }
    requires hands { N.facts.hands ≡ 2 }
    requires most { N.facts.most ≡ 0 }
    requires parts { AreParts blank tables mapper }
    requires rooms { blank.rooms ≡ 8 ∷ 8 ∷ [] }
    requires good { P.good rules }
{
    let signals = Signals::new();
    let mapper = Holding {
        inner: mapper,
        signals: &signals,
    };
    let Ok((heap, core, hands)) = Heap::<N>::open(alloc, blank, tables, mapper, Kept::new(rules))
    else {
        return Err("no memory for the hands")?;
    };
    let (first, second) = two_hands(hands);
    let shared = SharedHeap::new(heap, core);
    let (first, second) = join(
        rt,
        || -> Hand<N>
            requires { (1 ≤ first.spare) × (large ≤ N.facts.start.cap + 1) }
            ensures { HasEntered first result }
        { makes_large(rt, &shared, &signals, first) },
        || -> Hand<N>
            requires { (5 ≤ second.spare) × (large ≤ N.facts.start.cap + 1) }
            ensures { HasEntered second result }
        { calls_once_held(rt, &shared, &signals, second, call) },
    );
    assert_eq!(rt; signals.late.load(Ordering::SeqCst), 0);
    let (heap, core) = shared.parts();
    let (_image, books, _mapper) = heap.close(core, vec![in alloc; first, second]?);
    assert_eq!(rt; books.len(), 2);
    assert_eq!(rt; books[0].entries().len(), 1);
    assert_eq!(rt; books[1].entries().len(), 5);
    Ok(())
}

// Makes three blocks of 12 bytes and frees the first, so that the next free of their group isn't the first.
fn second_of_three<N: Name, M: Mapper, P: Rules, R: Wait + Abort>(
    rt: &R,
    heap: &SharedHeap<N, M, P>,
    hand: &mut Hand<N>,
) -> Block<N>
    requires spare { 5 ≤ hand.old.spare }
    requires cap { large ≤ N.facts.start.cap + 1 }
    ensures block { HasBlock hand.new result }
    ensures entered { HasEntered hand.old hand.new }
    ensures spare { hand.new.spare + 4 ≡ hand.old.spare }
{
    let first = made(rt, heap, hand, 12);
    let second = made(rt, heap, hand, 12);
    let third = made(rt, heap, hand, 12);
    hand.leave(third);
    freed(rt, heap, hand, first);
    second
}

// A block of n bytes.
fn made<N: Name, M: Mapper, P: Rules, R: Wait + Abort>(
    rt: &R,
    heap: &SharedHeap<N, M, P>,
    hand: &mut Hand<N>,
    n: u64,
) -> Block<N>
    requires spare { 1 ≤ hand.old.spare }
    requires cap { large ≤ N.facts.start.cap + 1 }
    ensures block { HasBlock hand.new result }
    ensures fresh { IsFresh hand.old result.slot }
    ensures blocks { (other : BlockToken) → HasBlock hand.old other → HasBlock hand.new other }
    ensures entered { HasEntered hand.old hand.new }
    ensures spare { hand.new.spare + 1 ≡ hand.old.spare }
{
    match heap.malloc(rt, hand, n) {
        Ok(block) => block,
        Err(_) => panic!(rt; "no block"),
    }
}

// A block is freed.
fn freed<N: Name, M: Mapper, P: Rules, R: Wait + Abort>(
    rt: &R,
    heap: &SharedHeap<N, M, P>,
    hand: &mut Hand<N>,
    block: Block<N>,
)
    requires spare { 1 ≤ hand.old.spare }
    requires block { HasBlock hand.old block }
    ensures others { (other : BlockToken) → IsApart other.slot block.slot → HasBlock hand.old other → HasBlock hand.new other }
    ensures entered { HasEntered hand.old hand.new }
    ensures spare { hand.new.spare + 1 ≡ hand.old.spare }
{
    match heap.free(rt, hand, block) {
        Ok(()) => {}
        Err(_) => panic!(rt; "a whole block is refused"),
    }
}

// A block that is a group by itself, for which a run is mapped once the second hand is ready.
fn makes_large<N: Name, M: Mapper, P: Rules, R: Wait + Abort>(
    rt: &R,
    heap: &SharedHeap<N, M, P>,
    signals: &Signals,
    mut hand: Hand<N>,
) -> Hand<N>
    requires spare { 1 ≤ hand.spare }
    requires cap { large ≤ N.facts.start.cap + 1 }
    ensures { HasEntered hand result }
{
    signals.wait_for(&signals.armed);
    let block = made(rt, heap, &mut hand, 131_052);
    hand.leave(block);
    hand
}

// The second hand's call, which is done once the map call is held.
fn calls_once_held<N: Name, M: Mapper, P: Rules, R: Wait + Abort>(
    rt: &R,
    heap: &SharedHeap<N, M, P>,
    signals: &Signals,
    mut hand: Hand<N>,
    call: Call,
) -> Hand<N>
    requires spare { 5 ≤ hand.spare }
    requires cap { large ≤ N.facts.start.cap + 1 }
    ensures { HasEntered hand result }
{
    let block = second_of_three(rt, heap, &mut hand);
    signals.armed.store(1, Ordering::SeqCst);
    signals.wait_for(&signals.began);
    match call {
        Call::Free => freed(rt, heap, &mut hand, block),
        Call::Malloc => {
            hand.leave(block);
            let another = made(rt, heap, &mut hand, 12);
            hand.leave(another);
        }
    }
    signals.returned.store(1, Ordering::SeqCst);
    hand
}
