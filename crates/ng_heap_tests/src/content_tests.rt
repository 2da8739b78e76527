// Bytes of blocks, blocks of zeros, and blocks with an align.
ghost use Rattle.std.specs.Prelude.{◌≡◌, ◌∷◌, [], ◌+◌, ◌≤◌, length};
ghost use Rattle.ng_group.specs.Tests.{AreParts};
ghost use Rattle.ng_heap_tests.specs.Tests.{MayClose};
ghost use Rattle.ng_space.specs.Blocks.{HasBlock};
ghost use Rattle.ng_terms.specs.Heap.{large};
ghost use Rattle.ng_view.specs.declared.view.View.{View};

use crate::tests::{ROOM, begin, count, end, frees_first, given, keep, parts};
use ng_group::{Core, Tables};
use ng_heap::{AllocRefusal, Heap};
use ng_history::Entry;
use ng_mapper::FirstFit;
use ng_policy::{Policy, Rules};
use ng_space::{Blank, Block, Hand, Name};
use std::alloc::Global;
use std::marker::Brand;
use std::process::Abort;
use std::test::Fail;

// Bytes are written over one another in a block of 92 bytes, and read with those around them.
fn write_and_read<N: Name, R: Abort>(rt: &R, heap: &Heap<N>, hand: &mut Hand<N>, block: &Block<N>)
    requires block { HasBlock hand.old block.now }
    requires len { block.now.len ≡ 92 }
    ensures block { HasBlock hand.new block.now }
    ensures closes { (seat : View) → MayClose seat hand.old → MayClose seat hand.new }
{
    heap.write(hand, block, 0, &[0xff; 92]);
    heap.write(hand, block, 3, &[1, 2, 3, 4, 5, 6, 7]);
    let mut found = [0; 12];
    heap.read(hand, block, 1, &mut found);
    assert_eq!(rt; found, [0xff, 0xff, 1, 2, 3, 4, 5, 6, 7, 0xff, 0xff, 0xff]);
}

// A block of 92 bytes that are 0, which begins there.
fn zeros_come<N: Name, P: Rules, R: Abort>(
    rt: &R,
    heap: &Heap<N>,
    core: &mut Core<N, FirstFit, P>,
    hand: &mut Hand<N>,
    at: u64,
)
    requires closes { MayClose core.old.seat hand.old }
    requires cap { large ≤ N.facts.start.cap + 1 }
    ensures closes { MayClose core.new.seat hand.new }
{
    assert!(rt; hand.spare() > 0);
    match heap.calloc_in(core, hand, 23, 4) {
        Ok(block) => {
            assert_eq!(rt; block.at(), at);
            let mut found = [1; 92];
            heap.read(hand, &block, 0, &mut found);
            assert_eq!(rt; found, [0; 92]);
            hand.leave(block);
        }
        Err(_why) => panic!(rt; "no block"),
    }
}

#[test]
fn a_dirty_slot_is_cleared(rt: HostRuntime) -> Result<(), Fail> {
    let alloc = rt.alloc();
    let (blank, tables, mapper) = parts(alloc)?;
    let rules = Policy::new(count, keep);
    clear_dirty::<Brand, _, _>(&rt, alloc, blank, tables, mapper, rules)
}

// Five blocks fill a group; the first is written in and freed, and its slot is the next that is given.
fn clear_dirty<N: Name, P: Rules + Drop, R: Abort>(
    rt: &R,
    alloc: Global,
    blank: Blank,
    tables: Tables,
    mapper: FirstFit,
    rules: P,
) -> Result<(), Fail>
    requires table { blank.table ≡ N.facts.table }
    requires start { blank.start ≡ N.facts.start }
    requires hands { length blank.rooms ≡ N.facts.hands }
    requires most { N.facts.most ≡ 0 }
    requires parts { AreParts blank tables mapper }
    requires rooms { blank.rooms ≡ ROOM ∷ [] }
    requires good { P.good rules }
{
    let (heap, mut core, mut hand) = begin::<N, P>(alloc, blank, tables, mapper, rules)?;
    let first = given(rt, &heap, &mut core, &mut hand, 92, 0x2040);
    write_and_read(rt, &heap, &mut hand, &first);
    let second = given(rt, &heap, &mut core, &mut hand, 92, 0x20a0);
    let third = given(rt, &heap, &mut core, &mut hand, 92, 0x2100);
    let fourth = given(rt, &heap, &mut core, &mut hand, 92, 0x2160);
    let fifth = given(rt, &heap, &mut core, &mut hand, 92, 0x21c0);
    frees_first(rt, &heap, &mut core, &mut hand, first);
    zeros_come(rt, &heap, &mut core, &mut hand, 0x2040);
    hand.leave(second);
    hand.leave(third);
    hand.leave(fourth);
    hand.leave(fifth);
    end(rt, alloc, heap, core, hand, 7)
}

#[test]
fn blocks_are_aligned_and_products_may_be_too_large(rt: HostRuntime) -> Result<(), Fail> {
    let alloc = rt.alloc();
    let (blank, tables, mapper) = parts(alloc)?;
    let rules = Policy::new(count, keep);
    give_aligned::<Brand, _, _>(&rt, alloc, blank, tables, mapper, rules)
}

// A block of 100 bytes at a multiple of 4,096, and 2 ^ 33 elements of 2 ^ 33 bytes, whose product is 0 in 64 bits.
fn give_aligned<N: Name, P: Rules + Drop, R: Abort>(
    rt: &R,
    alloc: Global,
    blank: Blank,
    tables: Tables,
    mapper: FirstFit,
    rules: P,
) -> Result<(), Fail>
    requires table { blank.table ≡ N.facts.table }
    requires start { blank.start ≡ N.facts.start }
    requires hands { length blank.rooms ≡ N.facts.hands }
    requires most { N.facts.most ≡ 0 }
    requires parts { AreParts blank tables mapper }
    requires rooms { blank.rooms ≡ ROOM ∷ [] }
    requires good { P.good rules }
{
    let (heap, mut core, mut hand) = begin::<N, P>(alloc, blank, tables, mapper, rules)?;
    let at = aligned_at(rt, &heap, &mut core, &mut hand);
    assert_eq!(rt; at % 4096, 0);
    refuse_product(rt, &heap, &mut core, &mut hand);
    let entries = [
        Entry::Give {
            n: 100,
            align: 4096,
            at,
        },
        Entry::TooLarge {
            count: 1 << 33,
            size: 1 << 33,
            align: 16,
        },
    ];
    assert_eq!(rt; hand.entries(), entries.as_slice());
    end(rt, alloc, heap, core, hand, 2)
}

// Where a block of 100 bytes with an align of 4,096 is given.
fn aligned_at<N: Name, P: Rules, R: Abort>(
    rt: &R,
    heap: &Heap<N>,
    core: &mut Core<N, FirstFit, P>,
    hand: &mut Hand<N>,
) -> u64
    requires closes { MayClose core.old.seat hand.old }
    requires cap { large ≤ N.facts.start.cap + 1 }
    ensures closes { MayClose core.new.seat hand.new }
{
    assert!(rt; hand.spare() > 0);
    match heap.request_in(core, hand, 100, 4096) {
        Ok(block) => {
            let at = block.at();
            hand.leave(block);
            at
        }
        Err(_why) => panic!(rt; "no block"),
    }
}

fn refuse_product<N: Name, P: Rules, R: Abort>(
    rt: &R,
    heap: &Heap<N>,
    core: &mut Core<N, FirstFit, P>,
    hand: &mut Hand<N>,
)
    requires closes { MayClose core.old.seat hand.old }
    requires cap { large ≤ N.facts.start.cap + 1 }
    ensures closes { MayClose core.new.seat hand.new }
{
    assert!(rt; hand.spare() > 0);
    match heap.calloc_in(core, hand, 1 << 33, 1 << 33) {
        Err(why) => assert_eq!(rt; why, AllocRefusal::TooLarge),
        Ok(_block) => panic!(rt; "a block without end"),
    }
}
