// A second area of metas: the word that links it to the first is read by a hand.
ghost use Rattle.std.specs.Prelude.{◌≡◌, ◌∷◌, [], length, ◌+◌, ◌≤◌};
ghost use Rattle.ng_group.specs.Tests.{AreParts};
ghost use Rattle.ng_terms.specs.Heap.{large};

use crate::tests::{count, keep, parts_for};
use ng_group::{Core, Tables};
use ng_heap::Heap;
use ng_mapper::FirstFit;
use ng_policy::{Kept, Policy, Rules};
use ng_space::{Blank, Hand, Name};
use std::alloc::Global;
use std::marker::Brand;
use std::process::Abort;
use std::test::Fail;

// The least request that gets a group by itself: with 20 bytes more it has 32 pages to the byte.
const LONE: u64 = 131_052;

#[test]
fn a_second_area_is_linked(rt: HostRuntime) -> Result<(), Fail> {
    let alloc = rt.alloc();
    let (blank, tables, mapper) = parts_for(alloc, &[102])?;
    let rules = Policy::new(count, keep);
    fill_an_area::<Brand, _, _>(&rt, alloc, blank, tables, mapper, rules)
}

// An area has 101 metas. The first lies in page 1, and 101 groups on 32 pages each end in front of page 3234, where the second
// area comes.
fn fill_an_area<N: Name, P: Rules + Drop, R: Abort>(
    rt: &R,
    alloc: Global,
    blank: Blank,
    tables: Tables,
    mapper: FirstFit,
    rules: P,
) -> Result<(), Fail>
    requires table { blank.table ≡ N.facts.table }
    requires start { blank.start ≡ N.facts.start }
    requires hands { length blank.rooms ≡ N.facts.hands }
    requires most { N.facts.most ≡ 0 }
    requires parts { AreParts blank tables mapper }
    requires rooms { blank.rooms ≡ 102 ∷ [] }
    requires good { P.good rules }
{
    let Ok((heap, mut core, mut hands)) = Heap::<N>::open(
        alloc,
        blank,
        tables,
        mapper,
        Kept::new(rules),
    ) else {
        return Err("no memory for the hands")?;
    };
    let hand = &mut hands[0];
    for _ in 0..102 {
        give_alone(rt, &heap, &mut core, hand);
    }
    assert_eq!(rt; core.live_pages(), 102 * 32 + 2);
    check_word(rt, &heap, hand, 0x1008, 0);
    check_word(rt, &heap, hand, 0xca_2008, 0x1000);
    Ok(())
}

// A block that is a group by itself.
fn give_alone<N: Name, P: Rules, R: Abort>(
    rt: &R,
    heap: &Heap<N>,
    core: &mut Core<N, FirstFit, P>,
    hand: &mut Hand<N>,
)
    requires cap { large ≤ N.facts.start.cap + 1 }
{
    assert!(rt; hand.spare() > 0);
    match heap.malloc_in(core, hand, LONE) {
        Ok(block) => hand.leave(block),
        Err(_) => panic!(rt; "no block"),
    }
}

// The hand loads this word at an address in the space.
fn check_word<N: Name, R: Abort>(rt: &R, heap: &Heap<N>, hand: &mut Hand<N>, addr: u64, word: u64) {
    assert!(rt; addr % 4 == 0);
    assert!(rt; addr < 4096 * heap.space().start().pages);
    assert_eq!(rt; heap.space().load(hand, addr), word);
}
