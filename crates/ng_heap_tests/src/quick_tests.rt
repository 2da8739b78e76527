// Blocks that are given without the lock, and each reason why none is.
ghost use Rattle.std.specs.Prelude.{◌≡◌, ◌∷◌, [], length};
ghost use Rattle.ng_group.specs.Tests.{AreParts};
ghost use Rattle.ng_heap_tests.specs.Tests.{MayClose};
ghost use Rattle.ng_view.specs.declared.view.View.{View};

use crate::tests::{ROOM, begin, count, end, given, keep, parts};
use ng_group::Tables;
use ng_heap::{Heap, Quick};
use ng_history::{Entry, LARGE};
use ng_mapper::FirstFit;
use ng_policy::{Policy, Rules};
use ng_space::{Blank, Hand, Name};
use std::alloc::Global;
use std::marker::Brand;
use std::process::Abort;
use std::test::Fail;

// Why no block came.
#[derive(Clone, Copy, Debug, PartialEq, Eq)]
enum Missed {
    TooLarge,
    Large,
    Idle,
    Bare,
    Other,
    Lost,
}

// Why no block of n bytes is given.
#[tactic(auto, using(crate::proofs::TestLemmas::quick_may))]
fn answered<N: Name, R: Abort>(rt: &R, heap: &Heap<N>, hand: &mut Hand<N>, n: u64) -> Missed
    ensures closes { (seat : View) → MayClose seat hand.old → MayClose seat hand.new }
{
    assert!(rt; hand.spare() > 0);
    match heap.malloc_unlocked(hand, n) {
        Quick::Given(_block) => panic!(rt; "a block is given"),
        Quick::TooLarge => Missed::TooLarge,
        Quick::Large => Missed::Large,
        Quick::Idle => Missed::Idle,
        Quick::Bare => Missed::Bare,
        Quick::Other { tag: _ } => Missed::Other,
        Quick::Lost => Missed::Lost,
    }
}

// Where a block of 20 bytes is given.
fn given_at<N: Name, R: Abort>(rt: &R, heap: &Heap<N>, hand: &mut Hand<N>) -> u64
    ensures closes { (seat : View) → MayClose seat hand.old → MayClose seat hand.new }
{
    assert!(rt; hand.spare() > 0);
    match heap.malloc_unlocked(hand, 20) {
        Quick::Given(block) => {
            let at = block.at();
            hand.leave(block);
            at
        }
        _other => panic!(rt; "no block"),
    }
}

#[test]
fn the_active_group_gives_until_it_is_bare(rt: HostRuntime) -> Result<(), Fail> {
    let alloc = rt.alloc();
    let (blank, tables, mapper) = parts(alloc)?;
    let rules = Policy::new(count, keep);
    give_until_bare::<Brand, _, _>(&rt, alloc, blank, tables, mapper, rules)
}

fn give_until_bare<N: Name, P: Rules + Drop, R: Abort>(
    rt: &R,
    alloc: Global,
    blank: Blank,
    tables: Tables,
    mapper: FirstFit,
    rules: P,
) -> Result<(), Fail>
    requires table { blank.table ≡ N.facts.table }
    requires start { blank.start ≡ N.facts.start }
    requires hands { length blank.rooms ≡ N.facts.hands }
    requires most { N.facts.most ≡ 0 }
    requires parts { AreParts blank tables mapper }
    requires rooms { blank.rooms ≡ ROOM ∷ [] }
    requires good { P.good rules }
{
    let (heap, mut core, mut hand) = begin::<N, P>(alloc, blank, tables, mapper, rules)?;
    assert_eq!(rt; answered(rt, &heap, &mut hand, 20), Missed::Idle);
    let first = given(rt, &heap, &mut core, &mut hand, 20, 0x2040);
    hand.leave(first);
    assert_eq!(rt; given_at(rt, &heap, &mut hand), 0x2060);
    assert_eq!(rt; answered(rt, &heap, &mut hand, 131_052), Missed::Large);
    assert_eq!(rt; answered(rt, &heap, &mut hand, LARGE), Missed::TooLarge);
    let entries = [
        Entry::Give {
            n: 20,
            align: 16,
            at: 0x2040,
        },
        Entry::Give {
            n: 20,
            align: 16,
            at: 0x2060,
        },
        Entry::TooLarge {
            count: 1,
            size: LARGE,
            align: 16,
        },
    ];
    assert_eq!(rt; hand.entries(), entries.as_slice());
    for further in 0..13 {
        given_at(rt, &heap, &mut hand);
    }
    assert_eq!(rt; answered(rt, &heap, &mut hand, 20), Missed::Bare);
    end(rt, alloc, heap, core, hand, 16)
}
