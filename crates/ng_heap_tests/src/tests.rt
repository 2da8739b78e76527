// Blocks that come and go over musl's rules, and a mapper that gives the lowest runs.
ghost use Rattle.std.specs.Prelude.{◌≡◌, ◌∷◌, [], IfOk, length, ◌+◌, ◌≤◌};
ghost use Rattle.ng_group.specs.Hands.{IsApart};
ghost use Rattle.ng_group.specs.Tests.{AreParts};
ghost use Rattle.ng_heap.specs.Keeps.{IsFresh};
ghost use Rattle.ng_heap_tests.specs.Tests.{MayClose};
ghost use Rattle.ng_policy.specs.Ask.{AskInRange, IsCount};
ghost use Rattle.ng_space.specs.Blocks.{BlockToken, HasBlock};
ghost use Rattle.ng_terms.specs.Heap.{empty, large};
ghost use Rattle.ng_view.specs.declared.view.View.{View};

use ng_group::{Core, Tables};
use ng_heap::{AllocRefusal, Damage, Heap, Needs, Unlocked};
use ng_history::{Entry, LARGE, Live};
use ng_mapper::FirstFit;
use ng_policy::{Ask, Kept, Policy, Rules, Spare, musl_count, musl_keep};
use ng_space::{Blank, Block, Hand, Host, Name, Start};
use std::alloc::Global;
use std::marker::Brand;
use std::process::Abort;
use std::test::Fail;

const PAGES: u32 = 4096;

pub(crate) const ROOM: u64 = 2000;

// The memory of a heap with one hand and of its core, and a mapper that refuses no call.
pub(crate) fn parts(alloc: Global) -> Result<(Blank, Tables, FirstFit), Host>
    ensures parts { IfOk result (λ made. AreParts made.0 made.1 made.2) }
    ensures rooms { IfOk result (λ made. made.0.rooms ≡ ROOM ∷ []) }
{
    parts_for(alloc, &[ROOM])
}

// The same with a hand for each room.
pub(crate) fn parts_for(alloc: Global, rooms: &[u64]) -> Result<(Blank, Tables, FirstFit), Host>
    requires few { length rooms.now ≤ 16 }
    ensures parts { IfOk result (λ made. AreParts made.0 made.1 made.2) }
    ensures rooms { IfOk result (λ made. made.0.rooms ≡ rooms.now) }
{
    let start = Start {
        pages: u64::from(PAGES),
        lower: 0x1000,
        upper: 0x100_0000,
        secret: 0x0123_4567_89ab_cdef,
        refusals: 0,
        cap: LARGE - 1,
    };
    let blank = Blank::new(alloc, start, rooms)?;
    let tables = Tables::new(alloc, PAGES)?;
    let mapper = FirstFit::new(alloc, PAGES, Vec::new(alloc))?;
    Ok((blank, tables, mapper))
}

// The heap, its core and its hand.
pub(crate) fn begin<N: Name, P: Rules + Drop>(
    alloc: Global,
    blank: Blank,
    tables: Tables,
    mapper: FirstFit,
    rules: P,
) -> Result<(Heap<N>, Core<N, FirstFit, P>, Hand<N>), Host>
    requires table { blank.table ≡ N.facts.table }
    requires start { blank.start ≡ N.facts.start }
    requires hands { length blank.rooms ≡ N.facts.hands }
    requires most { N.facts.most ≡ 0 }
    requires parts { AreParts blank tables mapper }
    requires rooms { blank.rooms ≡ ROOM ∷ [] }
    requires good { P.good rules }
    ensures closes { IfOk result (λ made. MayClose made.1.seat made.2) }
{
    match Heap::<N>::open(alloc, blank, tables, mapper, Kept::new(rules)) {
        Ok((heap, core, mut hands)) => {
            let Some(hand) = hands.pop() else {
                unreachable!()
            };
            Ok((heap, core, hand))
        }
        Err((_, host)) => Err(host),
    }
}

// The choices of musl.
pub(crate) fn count(ask: Ask) -> u32
    requires { AskInRange ask }
    ensures { IsCount ask.class result }
{
    musl_count(ask)
}

pub(crate) fn keep(spare: Spare) -> bool {
    musl_keep(spare)
}

// A block of n bytes, which begins there.
pub(crate) fn given<N: Name, P: Rules, R: Abort>(
    rt: &R,
    heap: &Heap<N>,
    core: &mut Core<N, FirstFit, P>,
    hand: &mut Hand<N>,
    n: u64,
    at: u64,
) -> Block<N>
    requires closes { MayClose core.old.seat hand.old }
    requires cap { large ≤ N.facts.start.cap + 1 }
    ensures block { HasBlock hand.new result }
    ensures len { result.len ≡ n }
    ensures fresh { IsFresh hand.old result.slot }
    ensures blocks { (other : BlockToken) → HasBlock hand.old other → HasBlock hand.new other }
    ensures closes { MayClose core.new.seat hand.new }
{
    assert!(rt; hand.spare() > 0);
    match heap.malloc_in(core, hand, n) {
        Ok(block) => {
            assert_eq!(rt; block.at(), at);
            block
        }
        Err(_why) => panic!(rt; "no block"),
    }
}

// A block is freed, whose slot is the first that is freed of its group and is settled under the lock.
pub(crate) fn frees_first<N: Name, P: Rules, R: Abort>(
    rt: &R,
    heap: &Heap<N>,
    core: &mut Core<N, FirstFit, P>,
    hand: &mut Hand<N>,
    block: Block<N>,
)
    requires closes { MayClose core.old.seat hand.old }
    requires block { HasBlock hand.old block }
    ensures others { (other : BlockToken) → IsApart other.slot block.slot → HasBlock hand.old other → HasBlock hand.new other }
    ensures closes { MayClose core.new.seat hand.new }
{
    assert!(rt; hand.spare() > 0);
    match heap.free_unlocked(hand, block) {
        Ok(Unlocked::Left(slot, Needs::First)) => heap.settle_in(core, hand, slot),
        _other => panic!(rt; "not left as the first"),
    }
}

// A block is freed, whose slot goes into the freed mask of its group at once.
fn frees_at_once<N: Name, R: Abort>(rt: &R, heap: &Heap<N>, hand: &mut Hand<N>, block: Block<N>)
    requires block { HasBlock hand.old block }
    ensures closes { (seat : View) → MayClose seat hand.old → MayClose seat hand.new }
{
    assert!(rt; hand.spare() > 0);
    match heap.free_unlocked(hand, block) {
        Ok(Unlocked::Done) => {}
        _other => panic!(rt; "not in the freed mask"),
    }
}

// Each entry is a legal step from where the ones before it lead.
fn assert_legal<R: Abort>(rt: &R, live: &mut Live, entries: &[Entry])
    requires live { live.old.state ≡ empty }
    requires room { live.old.room ≡ ROOM }
{
    assert!(rt; entries.len() <= 2000);
    for entry in entries {
        assert!(rt; live.step(entry, 0x100_0000), "{entry:?}");
    }
}

// The heap ends, with so many entries in the book of its hand.
pub(crate) fn end<N: Name, P: Rules + Drop, R: Abort>(
    rt: &R,
    alloc: Global,
    heap: Heap<N>,
    core: Core<N, FirstFit, P>,
    hand: Hand<N>,
    entries: usize,
) -> Result<(), Fail>
    requires closes { MayClose core.seat hand }
    requires hands { N.facts.hands ≡ 1 }
{
    let (image, books, _mapper) = heap.close(core, vec![in alloc; hand]?);
    assert_eq!(rt; image.pages(), PAGES);
    assert_eq!(rt; books.len(), 1);
    assert_eq!(rt; books[0].entries().len(), entries);
    Ok(())
}

#[test]
fn slots_are_freed_first_and_at_once(rt: HostRuntime) -> Result<(), Fail> {
    let alloc = rt.alloc();
    let (blank, tables, mapper) = parts(alloc)?;
    let rules = Policy::new(count, keep);
    free_three::<Brand, _, _>(&rt, alloc, blank, tables, mapper, rules)
}

fn free_three<N: Name, P: Rules + Drop, R: Abort>(
    rt: &R,
    alloc: Global,
    blank: Blank,
    tables: Tables,
    mapper: FirstFit,
    rules: P,
) -> Result<(), Fail>
    requires table { blank.table ≡ N.facts.table }
    requires start { blank.start ≡ N.facts.start }
    requires hands { length blank.rooms ≡ N.facts.hands }
    requires most { N.facts.most ≡ 0 }
    requires parts { AreParts blank tables mapper }
    requires rooms { blank.rooms ≡ ROOM ∷ [] }
    requires good { P.good rules }
{
    let mut live = Live::open(alloc, ROOM)?;
    let (heap, mut core, mut hand) = begin::<N, P>(alloc, blank, tables, mapper, rules)?;
    let first = given(rt, &heap, &mut core, &mut hand, 61, 0x2050);
    let second = given(rt, &heap, &mut core, &mut hand, 61, 0x20b0);
    let third = given(rt, &heap, &mut core, &mut hand, 61, 0x2110);
    let fourth = given(rt, &heap, &mut core, &mut hand, 61, 0x2170);
    let fifth = given(rt, &heap, &mut core, &mut hand, 61, 0x21d0);
    frees_first(rt, &heap, &mut core, &mut hand, first);
    let sixth = given(rt, &heap, &mut core, &mut hand, 61, 0x2040);
    frees_first(rt, &heap, &mut core, &mut hand, second);
    frees_at_once(rt, &heap, &mut hand, third);
    assert_legal(rt, &mut live, hand.entries());
    hand.leave(fourth);
    hand.leave(fifth);
    hand.leave(sixth);
    end(rt, alloc, heap, core, hand, 9)
}

#[test]
fn large_blocks_have_runs_of_their_own(rt: HostRuntime) -> Result<(), Fail> {
    let alloc = rt.alloc();
    let (blank, tables, mapper) = parts(alloc)?;
    let rules = Policy::new(count, keep);
    give_large::<Brand, _, _>(&rt, alloc, blank, tables, mapper, rules)
}

// The last size that a class serves, the first that is a group by itself, and one that is too large.
fn give_large<N: Name, P: Rules + Drop, R: Abort>(
    rt: &R,
    alloc: Global,
    blank: Blank,
    tables: Tables,
    mapper: FirstFit,
    rules: P,
) -> Result<(), Fail>
    requires table { blank.table ≡ N.facts.table }
    requires start { blank.start ≡ N.facts.start }
    requires hands { length blank.rooms ≡ N.facts.hands }
    requires most { N.facts.most ≡ 0 }
    requires parts { AreParts blank tables mapper }
    requires rooms { blank.rooms ≡ ROOM ∷ [] }
    requires good { P.good rules }
{
    let (heap, mut core, mut hand) = begin::<N, P>(alloc, blank, tables, mapper, rules)?;
    let first = given(rt, &heap, &mut core, &mut hand, 131_051, 0x2010);
    let second = given(rt, &heap, &mut core, &mut hand, 131_052, 0x22010);
    assert_eq!(rt; core.live_pages(), 65);
    hand.leave(first);
    hand.leave(second);
    refuse_largest(rt, &heap, &mut core, &mut hand);
    end(rt, alloc, heap, core, hand, 3)
}

// The largest size of all is too large.
fn refuse_largest<N: Name, P: Rules, R: Abort>(
    rt: &R,
    heap: &Heap<N>,
    core: &mut Core<N, FirstFit, P>,
    hand: &mut Hand<N>,
)
    requires closes { MayClose core.old.seat hand.old }
    requires cap { large ≤ N.facts.start.cap + 1 }
    ensures closes { MayClose core.new.seat hand.new }
{
    assert!(rt; hand.spare() > 0);
    match heap.malloc_in(core, hand, u64::MAX) {
        Err(why) => assert_eq!(rt; why, AllocRefusal::TooLarge),
        Ok(_block) => panic!(rt; "a block without end"),
    }
}

#[test]
fn damaged_blocks_come_back(rt: HostRuntime) -> Result<(), Fail> {
    let alloc = rt.alloc();
    let (blank, tables, mapper) = parts(alloc)?;
    let rules = Policy::new(count, keep);
    free_damaged::<Brand, _, _>(&rt, alloc, blank, tables, mapper, rules)
}

// A block of 61 bytes at 0x2050 has 15 more up to its slot's end: a 0, and their number in the last cell.
fn free_damaged<N: Name, P: Rules + Drop, R: Abort>(
    rt: &R,
    alloc: Global,
    blank: Blank,
    tables: Tables,
    mapper: FirstFit,
    rules: P,
) -> Result<(), Fail>
    requires table { blank.table ≡ N.facts.table }
    requires start { blank.start ≡ N.facts.start }
    requires hands { length blank.rooms ≡ N.facts.hands }
    requires most { N.facts.most ≡ 0 }
    requires parts { AreParts blank tables mapper }
    requires rooms { blank.rooms ≡ ROOM ∷ [] }
    requires good { P.good rules }
{
    let mut live = Live::open(alloc, ROOM)?;
    let (heap, mut core, mut hand) = begin::<N, P>(alloc, blank, tables, mapper, rules)?;
    let block = given(rt, &heap, &mut core, &mut hand, 61, 0x2050);
    spoil(rt, &heap, &mut hand, &block, 0x208c, 0xff00);
    let block = refused_in(rt, &heap, &mut core, &mut hand, block, Damage::Overrun);
    spoil(rt, &heap, &mut hand, &block, 0x2098, 4);
    let block = refused_unlocked(rt, &heap, &mut hand, block, Damage::BadReserved);
    let entries = [
        Entry::Give {
            n: 61,
            align: 16,
            at: 0x2050,
        },
        Entry::Refused {
            at: 0x2050,
            name: 13,
        },
        Entry::Refused {
            at: 0x2050,
            name: 12,
        },
    ];
    assert_eq!(rt; hand.entries(), entries.as_slice());
    assert_legal(rt, &mut live, hand.entries());
    hand.leave(block);
    end(rt, alloc, heap, core, hand, 3)
}

// A number is stored in a cell behind the block's address.
fn spoil<N: Name, R: Abort>(
    rt: &R,
    heap: &Heap<N>,
    hand: &mut Hand<N>,
    block: &Block<N>,
    addr: u64,
    value: u32,
)
    requires block { HasBlock hand.old block.now }
    ensures block { HasBlock hand.new block.now }
    ensures closes { (seat : View) → MayClose seat hand.old → MayClose seat hand.new }
{
    assert!(rt; addr % 4 == 0);
    assert!(rt; addr >= block.at());
    assert!(rt; addr - block.at() < block.gap());
    heap.space().store_in(hand, block, addr, value);
}

// A free under the lock is refused, and the block comes back.
fn refused_in<N: Name, P: Rules, R: Abort>(
    rt: &R,
    heap: &Heap<N>,
    core: &mut Core<N, FirstFit, P>,
    hand: &mut Hand<N>,
    block: Block<N>,
    why: Damage,
) -> Block<N>
    requires closes { MayClose core.old.seat hand.old }
    requires block { HasBlock hand.old block }
    ensures block { HasBlock hand.new result }
    ensures closes { MayClose core.new.seat hand.new }
{
    assert!(rt; hand.spare() > 0);
    match heap.free_in(core, hand, block) {
        Err((left, found)) => {
            assert_eq!(rt; found, why);
            left
        }
        Ok(()) => panic!(rt; "a damaged block is freed"),
    }
}

// So is one without the lock.
fn refused_unlocked<N: Name, R: Abort>(
    rt: &R,
    heap: &Heap<N>,
    hand: &mut Hand<N>,
    block: Block<N>,
    why: Damage,
) -> Block<N>
    requires block { HasBlock hand.old block }
    ensures closes { (seat : View) → MayClose seat hand.old → MayClose seat hand.new }
{
    assert!(rt; hand.spare() > 0);
    match heap.free_unlocked(hand, block) {
        Err((left, found)) => {
            assert_eq!(rt; found, why);
            left
        }
        Ok(_) => panic!(rt; "a damaged block is freed"),
    }
}
