// A heap whose core goes behind a lock, is shared by two threads, and comes back to be closed.
ghost use Rattle.std.specs.Prelude.{◌≡◌, ◌+◌, ◌≤◌, ◌∷◌, [], length};
ghost use Rattle.ng_group.specs.Tests.{AreParts};
ghost use Rattle.ng_space.specs.Callers.{fresh_caller, fresh_callers};
ghost use Rattle.ng_space.specs.Tests.{HasEntered};
ghost use Rattle.ng_terms.specs.Heap.{large};

use crate::tests::{count, keep, parts_for};
use ng_group::Tables;
use ng_heap::{Heap, SharedHeap};
use ng_mapper::FirstFit;
use ng_policy::{Kept, Policy, Rules};
use ng_space::{Blank, Hand, Name};
use std::alloc::Global;
use std::marker::Brand;
use std::process::Abort;
use std::sync::Wait;
use std::test::Fail;
use std::thread::{Threads, join};

#[test]
fn two_threads_share_a_heap(rt: HostRuntime) -> Result<(), Fail> {
    let alloc = rt.alloc();
    let (blank, tables, mapper) = parts_for(alloc, &[8, 8])?;
    let rules = Policy::new(count, keep);
    share_in_two::<Brand, _, _>(&rt, alloc, blank, tables, mapper, rules)
}

fn share_in_two<N: Name + Send + Sync, P: Rules + Send + Drop, R: Threads + Wait + Abort + Sync>(
    rt: &R,
    alloc: Global,
    blank: Blank,
    tables: Tables,
    mapper: FirstFit,
    rules: P,
) -> Result<(), Fail>
    requires table { blank.table ≡ N.facts.table }
    requires start { blank.start ≡ N.facts.start }
    requires hands { N.facts.hands ≡ 2 }
    requires most { N.facts.most ≡ 0 }
    requires parts { AreParts blank tables mapper }
    requires rooms { blank.rooms ≡ 8 ∷ 8 ∷ [] }
    requires good { P.good rules }
{
    let Ok((heap, core, hands)) = Heap::<N>::open(alloc, blank, tables, mapper, Kept::new(rules))
    else {
        return Err("no memory for the hands")?;
    };
    let (first, second) = two_hands(hands);
    let shared = SharedHeap::new(heap, core);
    let (first, second) = join(
        rt,
        || -> Hand<N>
            requires { (4 ≤ first.spare) × (large ≤ N.facts.start.cap + 1) }
            ensures { HasEntered first result }
        { worked(rt, &shared, first, 20) },
        || -> Hand<N>
            requires { (4 ≤ second.spare) × (large ≤ N.facts.start.cap + 1) }
            ensures { HasEntered second result }
        { worked(rt, &shared, second, 200_000) },
    );
    let (heap, core) = shared.parts();
    let (_image, books, _mapper) = heap.close(core, vec![in alloc; first, second]?);
    assert_eq!(rt; books.len(), 2);
    assert_eq!(rt; books[0].entries().len(), 4);
    assert_eq!(rt; books[1].entries().len(), 4);
    Ok(())
}

pub(crate) fn two_hands<N: Name>(mut hands: Vec<Hand<N>>) -> (Hand<N>, Hand<N>)
    requires { hands.items ≡ fresh_callers 1 (8 ∷ 8 ∷ []) }
    ensures first { result.0 ≡ fresh_caller 1 8 }
    ensures second { result.1 ≡ fresh_caller 2 8 }
{
    let Some(second) = hands.pop() else {
        unreachable!()
    };
    let Some(first) = hands.pop() else {
        unreachable!()
    };
    (first, second)
}

// Two blocks of a size, one after the other, each freed before the next.
fn worked<N: Name, P: Rules, R: Wait + Abort>(
    rt: &R,
    heap: &SharedHeap<N, FirstFit, P>,
    mut hand: Hand<N>,
    size: u64,
) -> Hand<N>
    requires spare { 4 ≤ hand.spare }
    requires cap { large ≤ N.facts.start.cap + 1 }
    ensures { HasEntered hand result }
{
    comes_and_goes(rt, heap, &mut hand, size);
    comes_and_goes(rt, heap, &mut hand, size);
    hand
}

// A block of a size, and its free.
fn comes_and_goes<N: Name, P: Rules, R: Wait + Abort>(
    rt: &R,
    heap: &SharedHeap<N, FirstFit, P>,
    hand: &mut Hand<N>,
    size: u64,
)
    requires spare { 2 ≤ hand.old.spare }
    requires cap { large ≤ N.facts.start.cap + 1 }
    ensures entered { HasEntered hand.old hand.new }
    ensures spare { hand.new.spare + 2 ≡ hand.old.spare }
{
    match heap.malloc(rt, hand, size) {
        Ok(block) => match heap.free(rt, hand, block) {
            Ok(()) => {}
            Err(_) => panic!(rt; "a whole block is refused"),
        },
        Err(_) => panic!(rt; "no block"),
    }
}
