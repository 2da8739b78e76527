// Addresses that one hand asks to free, while another makes and frees blocks beside it.
ghost use Rattle.std.specs.Prelude.{◌≡◌, ◌+◌, ◌≤◌, ◌∷◌, [], length};
ghost use Rattle.ng_group.specs.Tests.{AreParts};
ghost use Rattle.ng_heap_tests.specs.Tests.{AreOwn};
ghost use Rattle.ng_space.specs.Callers.{fresh_caller, fresh_callers};
ghost use Rattle.ng_space.specs.Tests.{HasEntered};
ghost use Rattle.ng_terms.specs.Heap.{large};

use crate::lock_tests::Signals;
use crate::tests::{count, keep, parts_for};
use ng_group::Tables;
use ng_heap::{BadPointer, Found, Heap, PointerFault, SharedHeap};
use ng_mapper::{FirstFit, Mapper};
use ng_policy::{Kept, Policy, Rules};
use ng_space::{Blank, Block, Hand, Name};
use std::alloc::Global;
use std::marker::Brand;
use std::process::Abort;
use std::sync::Wait;
use std::sync::atomic::Ordering;
use std::test::Fail;
use std::thread::{Threads, join};

// The addresses that are refused, each with its number.
const REFUSED: [(u64, u32); 8] = [
    (0x2041, 1),
    (0x0, 2),
    (0x100_0000, 2),
    (0xffff_ffff_ffff_fff0, 2),
    (0x1010, 4),
    (0x2000, 4),
    (0x2030, 12),
    (0x2080, 15),
];

#[test]
fn a_hand_is_judged_by_its_own_cells(rt: HostRuntime) -> Result<(), Fail> {
    let alloc = rt.alloc();
    let (blank, tables, mapper) = parts_for(alloc, &[2100, 2100])?;
    let rules = Policy::new(count, keep);
    ask_beside::<Brand, _, _>(&rt, alloc, blank, tables, mapper, rules)
}

fn ask_beside<N: Name + Send + Sync, P: Rules + Send + Drop, R: Threads + Wait + Abort + Sync>(
    rt: &R,
    alloc: Global,
    blank: Blank,
    tables: Tables,
    mapper: FirstFit,
    rules: P,
) -> Result<(), Fail>
    requires table { blank.table ≡ N.facts.table }
    requires start { blank.start ≡ N.facts.start }
    requires hands { N.facts.hands ≡ 2 }
    requires most { N.facts.most ≡ 0 }
    requires parts { AreParts blank tables mapper }
    requires rooms { blank.rooms ≡ 2100 ∷ 2100 ∷ [] }
    requires good { P.good rules }
{
    let Ok((heap, core, hands)) = Heap::<N>::open(alloc, blank, tables, mapper, Kept::new(rules))
    else {
        return Err("no memory for the hands")?;
    };
    let (first, second) = hands_of_two(hands);
    let shared = SharedHeap::new(heap, core);
    let signals = Signals::new();
    let (first, second) = join(
        rt,
        || -> Hand<N>
            requires { large ≤ N.facts.start.cap + 1 }
            ensures { HasEntered first result }
        { asks(rt, alloc, &shared, &signals, first) },
        || -> Hand<N>
            requires { large ≤ N.facts.start.cap + 1 }
            ensures { HasEntered second result }
        { churns(rt, &shared, &signals, second) },
    );
    assert_eq!(rt; signals.late.load(Ordering::SeqCst), 0);
    let (heap, core) = shared.parts();
    let (_image, books, _mapper) = heap.close(core, vec![in alloc; first, second]?);
    assert_eq!(rt; books.len(), 2);
    assert_eq!(rt; books[0].entries().len(), 12);
    assert_eq!(rt; books[1].entries().len(), 2001);
    Ok(())
}

fn hands_of_two<N: Name>(mut hands: Vec<Hand<N>>) -> (Hand<N>, Hand<N>)
    requires { hands.items ≡ fresh_callers 1 (2100 ∷ 2100 ∷ []) }
    ensures first { result.0 ≡ fresh_caller 1 2100 }
    ensures second { result.1 ≡ fresh_caller 2 2100 }
{
    let Some(second) = hands.pop() else {
        unreachable!()
    };
    let Some(first) = hands.pop() else {
        unreachable!()
    };
    (first, second)
}

// A block of 20 bytes is made, which begins there.
fn make<N: Name, M: Mapper, P: Rules, R: Wait + Abort>(
    rt: &R,
    heap: &SharedHeap<N, M, P>,
    hand: &mut Hand<N>,
    held: &mut Vec<Block<N>>,
    at: u64,
)
    requires own { AreOwn hand.old held.old.items }
    requires cap { large ≤ N.facts.start.cap + 1 }
    ensures own { AreOwn hand.new held.new.items }
    ensures entered { HasEntered hand.old hand.new }
{
    assert!(rt; hand.spare() > 0);
    assert!(rt; held.len() < held.capacity());
    match heap.malloc(rt, hand, 20) {
        Ok(block) => {
            assert_eq!(rt; block.at(), at);
            held.push_reserved(block);
        }
        Err(_) => panic!(rt; "no block"),
    }
}

// The same, where the block is left in the hand.
fn keep_one<N: Name, M: Mapper, P: Rules, R: Wait + Abort>(
    rt: &R,
    heap: &SharedHeap<N, M, P>,
    hand: &mut Hand<N>,
    at: u64,
)
    requires cap { large ≤ N.facts.start.cap + 1 }
    ensures entered { HasEntered hand.old hand.new }
{
    assert!(rt; hand.spare() > 0);
    match heap.malloc(rt, hand, 20) {
        Ok(block) => {
            assert_eq!(rt; block.at(), at);
            hand.leave(block);
        }
        Err(_) => panic!(rt; "no block"),
    }
}

// Once the first hand's two blocks are made, one is made and kept. Then others are made and freed a thousand times.
fn churns<N: Name, M: Mapper, P: Rules, R: Wait + Abort>(
    rt: &R,
    heap: &SharedHeap<N, M, P>,
    signals: &Signals,
    mut hand: Hand<N>,
) -> Hand<N>
    requires cap { large ≤ N.facts.start.cap + 1 }
    ensures { HasEntered hand result }
{
    signals.wait_for(&signals.armed);
    keep_one(rt, heap, &mut hand, 0x2080);
    signals.began.store(1, Ordering::SeqCst);
    for _round in 0..1000 {
        comes_and_goes(rt, heap, &mut hand);
    }
    hand
}

fn comes_and_goes<N: Name, M: Mapper, P: Rules, R: Wait + Abort>(
    rt: &R,
    heap: &SharedHeap<N, M, P>,
    hand: &mut Hand<N>,
)
    requires cap { large ≤ N.facts.start.cap + 1 }
    ensures { HasEntered hand.old hand.new }
{
    assert!(rt; hand.spare() > 1);
    match heap.malloc(rt, hand, 20) {
        Ok(block) => match heap.free(rt, hand, block) {
            Ok(()) => {}
            Err(_) => panic!(rt; "a whole block is refused"),
        },
        Err(_) => panic!(rt; "no block"),
    }
}

// Two blocks are made, and addresses are refused; then the first block is written over and mended, and both are freed.
fn asks<N: Name, M: Mapper, P: Rules, R: Wait + Abort>(
    rt: &R,
    alloc: Global,
    heap: &SharedHeap<N, M, P>,
    signals: &Signals,
    mut hand: Hand<N>,
) -> Hand<N>
    requires cap { large ≤ N.facts.start.cap + 1 }
    ensures { HasEntered hand result }
{
    let Ok(mut held) = Vec::with_capacity(alloc, 2) else {
        panic!(rt; "no memory for two blocks")
    };
    make(rt, heap, &mut hand, &mut held, 0x2040);
    make(rt, heap, &mut hand, &mut held, 0x2060);
    signals.armed.store(1, Ordering::SeqCst);
    signals.wait_for(&signals.began);
    for (addr, number) in REFUSED {
        asked(rt, heap, &mut hand, &mut held, addr, number);
    }
    spoils(rt, heap.heap(), &mut hand, held.as_slice());
    asked(rt, heap, &mut hand, &mut held, 0x2040, 0);
    asked(rt, heap, &mut hand, &mut held, 0x2060, 0);
    assert!(rt; held.len() == 0);
    held.destroy_empty();
    hand
}

// A block is freed by its address, number 0, or the address is refused with another.
fn asked<N: Name, M: Mapper, P: Rules, R: Wait + Abort>(
    rt: &R,
    heap: &SharedHeap<N, M, P>,
    hand: &mut Hand<N>,
    held: &mut Vec<Block<N>>,
    addr: u64,
    number: u32,
)
    requires own { AreOwn hand.old held.old.items }
    ensures own { AreOwn hand.new held.new.items }
    ensures entered { HasEntered hand.old hand.new }
{
    assert!(rt; hand.spare() > 0);
    match heap.free_at(rt, hand, held, addr) {
        Ok(()) => assert_eq!(rt; number, 0),
        Err(why) => assert_eq!(rt; why.number(), number, "{why:?}"),
    }
}

// The first block is found with its length; not while a byte behind it is written over.
fn spoils<N: Name, R: Abort>(rt: &R, heap: &Heap<N>, hand: &mut Hand<N>, held: &[Block<N>])
    requires own { AreOwn hand.old held.now }
    ensures own { AreOwn hand.new held.now }
    ensures entered { HasEntered hand.old hand.new }
{
    let found = looked(heap, hand, held, 0x2040);
    assert!(rt; matches!(found, Ok(slot) if slot.len == 20));
    writes(rt, heap, hand, held, 1);
    let found = looked(heap, hand, held, 0x2040);
    assert!(rt;
        matches!(
            found,
            Err(BadPointer {
                fault: PointerFault::Overrun,
                seen: _
            })
        )
    );
    writes(rt, heap, hand, held, 0);
}

// What is found at an address.
fn looked<N: Name>(
    heap: &Heap<N>,
    hand: &mut Hand<N>,
    _held: &[Block<N>],
    addr: u64,
) -> Result<Found, BadPointer>
    requires own { AreOwn hand.old _held.now }
    ensures own { AreOwn hand.new _held.now }
    ensures entered { HasEntered hand.old hand.new }
{
    heap.look(hand, addr)
}

// The byte behind the first block's own is written.
fn writes<N: Name, R: Abort>(
    rt: &R,
    heap: &Heap<N>,
    hand: &mut Hand<N>,
    held: &[Block<N>],
    byte: u8,
)
    requires own { AreOwn hand.old held.now }
    ensures own { AreOwn hand.new held.now }
    ensures entered { HasEntered hand.old hand.new }
{
    assert!(rt; held.len() > 0);
    let block = &held[0];
    assert!(rt; block.gap() > 20);
    heap.scribble(hand, block, 20, byte);
}
