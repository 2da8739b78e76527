// Blocks that get other lengths, and blocks with an align, over musl's rules and a mapper that gives the lowest runs.
ghost use Rattle.std.specs.Prelude.{◌≡◌, ◌∷◌, [], IfOk, length, ◌+◌, ◌≤◌};
ghost use Rattle.ng_group.specs.Tests.{AreParts};
ghost use Rattle.ng_heap_tests.specs.Tests.{MayClose};
ghost use Rattle.ng_policy.specs.Ask.{AskInRange, IsCount};
ghost use Rattle.ng_space.specs.Blocks.{HasBlock};
ghost use Rattle.ng_terms.specs.Heap.{large};
ghost use Rattle.ng_view.specs.declared.view.View.{View};

use ng_group::{Core, Tables};
use ng_heap::Heap;
use ng_history::{Entry, LARGE};
use ng_mapper::FirstFit;
use ng_policy::{Ask, Kept, Policy, Rules, Spare, musl_count, musl_keep};
use ng_resize::{AlignRefusal, ResizeRefusal, aligned_in, realloc_in};
use ng_space::{Blank, Block, Hand, Host, Name, Start};
use std::alloc::Global;
use std::marker::Brand;
use std::process::Abort;
use std::test::Fail;

const PAGES: u32 = 4096;

const BYTES: [u8; 20] = [
    1, 2, 3, 4, 5, 6, 7, 8, 9, 10, 11, 12, 13, 14, 15, 16, 17, 18, 19, 20,
];

// The memory of a heap with one hand and of its core, and a mapper that refuses no call.
fn parts(alloc: Global) -> Result<(Blank, Tables, FirstFit), Host>
    ensures parts { IfOk result (λ made. AreParts made.0 made.1 made.2) }
    ensures rooms { IfOk result (λ made. made.0.rooms ≡ 100 ∷ []) }
{
    let start = Start {
        pages: u64::from(PAGES),
        lower: 0x1000,
        upper: 0x100_0000,
        secret: 0x0123_4567_89ab_cdef,
        refusals: 0,
        cap: LARGE - 1,
    };
    let blank = Blank::new(alloc, start, &[100])?;
    let tables = Tables::new(alloc, PAGES)?;
    let mapper = FirstFit::new(alloc, PAGES, Vec::new(alloc))?;
    Ok((blank, tables, mapper))
}

// The heap, its core and its hand.
fn begin<N: Name, P: Rules + Drop>(
    alloc: Global,
    blank: Blank,
    tables: Tables,
    mapper: FirstFit,
    rules: P,
) -> Result<(Heap<N>, Core<N, FirstFit, P>, Hand<N>), Host>
    requires table { blank.table ≡ N.facts.table }
    requires start { blank.start ≡ N.facts.start }
    requires hands { length blank.rooms ≡ N.facts.hands }
    requires most { N.facts.most ≡ 0 }
    requires parts { AreParts blank tables mapper }
    requires rooms { blank.rooms ≡ 100 ∷ [] }
    requires good { P.good rules }
    ensures closes { IfOk result (λ made. MayClose made.1.seat made.2) }
{
    match Heap::<N>::open(alloc, blank, tables, mapper, Kept::new(rules)) {
        Ok((heap, core, mut hands)) => {
            let Some(hand) = hands.pop() else {
                unreachable!()
            };
            Ok((heap, core, hand))
        }
        Err((_, host)) => Err(host),
    }
}

// The heap ends, with these entries in the book of its hand.
fn end<N: Name, P: Rules + Drop, R: Abort>(
    rt: &R,
    alloc: Global,
    heap: Heap<N>,
    core: Core<N, FirstFit, P>,
    hand: Hand<N>,
    entries: &[Entry],
) -> Result<(), Fail>
    requires closes { MayClose core.seat hand }
    requires hands { N.facts.hands ≡ 1 }
{
    let (image, books, _mapper) = heap.close(core, vec![in alloc; hand]?);
    assert_eq!(rt; image.pages(), PAGES);
    assert_eq!(rt; books.len(), 1);
    assert_eq!(rt; books[0].entries(), entries);
    Ok(())
}

// The choices of musl.
fn count(ask: Ask) -> u32
    requires { AskInRange ask }
    ensures { IsCount ask.class result }
{
    musl_count(ask)
}

fn keep(spare: Spare) -> bool {
    musl_keep(spare)
}

// A block of n bytes, which begins there.
fn given<N: Name, P: Rules, R: Abort>(
    rt: &R,
    heap: &Heap<N>,
    core: &mut Core<N, FirstFit, P>,
    hand: &mut Hand<N>,
    n: u64,
    at: u64,
) -> Block<N>
    requires closes { MayClose core.old.seat hand.old }
    requires cap { large ≤ N.facts.start.cap + 1 }
    ensures block { HasBlock hand.new result }
    ensures len { result.len ≡ n }
    ensures closes { MayClose core.new.seat hand.new }
{
    assert!(rt; hand.spare() > 0);
    match heap.malloc_in(core, hand, n) {
        Ok(block) => {
            assert_eq!(rt; block.at(), at);
            block
        }
        Err(_why) => panic!(rt; "no block"),
    }
}

// The block has n bytes then, and begins there.
fn resized<N: Name, P: Rules, R: Abort>(
    rt: &R,
    heap: &Heap<N>,
    core: &mut Core<N, FirstFit, P>,
    hand: &mut Hand<N>,
    block: Block<N>,
    n: u64,
    at: u64,
) -> Block<N>
    requires closes { MayClose core.old.seat hand.old }
    requires block { HasBlock hand.old block }
    requires cap { large ≤ N.facts.start.cap + 1 }
    ensures block { HasBlock hand.new result }
    ensures len { result.len ≡ n }
    ensures closes { MayClose core.new.seat hand.new }
{
    assert!(rt; hand.spare() > 1);
    match realloc_in(heap, core, hand, block, n) {
        Ok(new) => {
            assert_eq!(rt; new.at(), at);
            new
        }
        Err((_left, _why)) => panic!(rt; "not resized"),
    }
}

// A size that is beyond every heap is refused, and the block comes back.
fn too_large<N: Name, P: Rules, R: Abort>(
    rt: &R,
    heap: &Heap<N>,
    core: &mut Core<N, FirstFit, P>,
    hand: &mut Hand<N>,
    block: Block<N>,
) -> Block<N>
    requires closes { MayClose core.old.seat hand.old }
    requires block { HasBlock hand.old block }
    requires cap { large ≤ N.facts.start.cap + 1 }
    ensures block { result ≡ block }
    ensures has { HasBlock hand.new block }
    ensures closes { MayClose core.new.seat hand.new }
{
    assert!(rt; hand.spare() > 1);
    match realloc_in(heap, core, hand, block, LARGE) {
        Err((left, why)) => {
            assert_eq!(rt; why, ResizeRefusal::TooLarge);
            left
        }
        Ok(_new) => panic!(rt; "a block without end"),
    }
}

// Its first 20 bytes are those that were written.
fn reads_back<N: Name, R: Abort>(rt: &R, heap: &Heap<N>, hand: &mut Hand<N>, block: &Block<N>)
    requires block { HasBlock hand.old block.now }
    requires len { 20 ≤ block.now.len }
    ensures block { HasBlock hand.new block.now }
    ensures closes { (seat : View) → MayClose seat hand.old → MayClose seat hand.new }
{
    let mut bytes = [0; 20];
    heap.read(hand, block, 0, &mut bytes);
    assert_eq!(rt; bytes, BYTES);
}

#[test]
fn a_block_grows_with_its_bytes(rt: HostRuntime) -> Result<(), Fail> {
    let alloc = rt.alloc();
    let (blank, tables, mapper) = parts(alloc)?;
    let rules = Policy::new(count, keep);
    grow::<Brand, _, _>(&rt, alloc, blank, tables, mapper, rules)
}

// A block of 20 bytes grows to 100, and is refused more than every heap has.
fn grow<N: Name, P: Rules + Drop, R: Abort>(
    rt: &R,
    alloc: Global,
    blank: Blank,
    tables: Tables,
    mapper: FirstFit,
    rules: P,
) -> Result<(), Fail>
    requires table { blank.table ≡ N.facts.table }
    requires start { blank.start ≡ N.facts.start }
    requires hands { length blank.rooms ≡ N.facts.hands }
    requires most { N.facts.most ≡ 0 }
    requires parts { AreParts blank tables mapper }
    requires rooms { blank.rooms ≡ 100 ∷ [] }
    requires good { P.good rules }
{
    let (heap, mut core, mut hand) = begin::<N, P>(alloc, blank, tables, mapper, rules)?;
    let block = given(rt, &heap, &mut core, &mut hand, 20, 0x2040);
    heap.write(&mut hand, &block, 0, &BYTES);
    let block = resized(rt, &heap, &mut core, &mut hand, block, 100, 0x2230);
    reads_back(rt, &heap, &mut hand, &block);
    let block = too_large(rt, &heap, &mut core, &mut hand, block);
    reads_back(rt, &heap, &mut hand, &block);
    hand.leave(block);
    let entries = [
        Entry::Give {
            n: 20,
            align: 16,
            at: 0x2040,
        },
        Entry::Give {
            n: 100,
            align: 16,
            at: 0x2230,
        },
        Entry::Take { at: 0x2040 },
        Entry::TooLarge {
            count: 1,
            size: LARGE,
            align: 16,
        },
    ];
    end(rt, alloc, heap, core, hand, &entries)
}

#[test]
fn blocks_stay_where_the_rule_has_them_stay(rt: HostRuntime) -> Result<(), Fail> {
    let alloc = rt.alloc();
    let (blank, tables, mapper) = parts(alloc)?;
    let rules = Policy::new(count, keep);
    stay::<Brand, _, _>(&rt, alloc, blank, tables, mapper, rules)
}

// A slot of 32 bytes has room for 28, and a run of 50 pages for 200,016 bytes but not for 208,896.
fn stay<N: Name, P: Rules + Drop, R: Abort>(
    rt: &R,
    alloc: Global,
    blank: Blank,
    tables: Tables,
    mapper: FirstFit,
    rules: P,
) -> Result<(), Fail>
    requires table { blank.table ≡ N.facts.table }
    requires start { blank.start ≡ N.facts.start }
    requires hands { length blank.rooms ≡ N.facts.hands }
    requires most { N.facts.most ≡ 0 }
    requires parts { AreParts blank tables mapper }
    requires rooms { blank.rooms ≡ 100 ∷ [] }
    requires good { P.good rules }
{
    let (heap, mut core, mut hand) = begin::<N, P>(alloc, blank, tables, mapper, rules)?;
    let small = given(rt, &heap, &mut core, &mut hand, 20, 0x2040);
    let small = resized(rt, &heap, &mut core, &mut hand, small, 28, 0x2040);
    let small = resized(rt, &heap, &mut core, &mut hand, small, 29, 0x2230);
    hand.leave(small);
    let large = given(rt, &heap, &mut core, &mut hand, 200_000, 0x3030);
    let large = resized(rt, &heap, &mut core, &mut hand, large, 200_016, 0x3030);
    let large = resized(rt, &heap, &mut core, &mut hand, large, 208_896, 0x34040);
    hand.leave(large);
    let entries = [
        Entry::Give {
            n: 20,
            align: 16,
            at: 0x2040,
        },
        Entry::Resize { at: 0x2040, n: 28 },
        Entry::Give {
            n: 29,
            align: 16,
            at: 0x2230,
        },
        Entry::Take { at: 0x2040 },
        Entry::Give {
            n: 200_000,
            align: 16,
            at: 0x3030,
        },
        Entry::Resize {
            at: 0x3030,
            n: 200_016,
        },
        Entry::Give {
            n: 208_896,
            align: 16,
            at: 0x34040,
        },
        Entry::Take { at: 0x3030 },
    ];
    end(rt, alloc, heap, core, hand, &entries)
}

#[test]
fn a_bad_align_is_refused(rt: HostRuntime) -> Result<(), Fail> {
    let alloc = rt.alloc();
    let (blank, tables, mapper) = parts(alloc)?;
    let rules = Policy::new(count, keep);
    align::<Brand, _, _>(&rt, alloc, blank, tables, mapper, rules)
}

// Blocks of 100 bytes with an align of 0, of 24, which is none, and of 2 MiB.
fn align<N: Name, P: Rules + Drop, R: Abort>(
    rt: &R,
    alloc: Global,
    blank: Blank,
    tables: Tables,
    mapper: FirstFit,
    rules: P,
) -> Result<(), Fail>
    requires table { blank.table ≡ N.facts.table }
    requires start { blank.start ≡ N.facts.start }
    requires hands { length blank.rooms ≡ N.facts.hands }
    requires most { N.facts.most ≡ 0 }
    requires parts { AreParts blank tables mapper }
    requires rooms { blank.rooms ≡ 100 ∷ [] }
    requires good { P.good rules }
{
    let (heap, mut core, mut hand) = begin::<N, P>(alloc, blank, tables, mapper, rules)?;
    asks(rt, &heap, &mut core, &mut hand, 0, Ok(0x2040));
    asks(
        rt,
        &heap,
        &mut core,
        &mut hand,
        24,
        Err(AlignRefusal::BadAlign),
    );
    asks(rt, &heap, &mut core, &mut hand, 0x20_0000, Ok(0x20_0000));
    let entries = [
        Entry::Give {
            n: 100,
            align: 0,
            at: 0x2040,
        },
        Entry::BadAlign { align: 24 },
        Entry::Give {
            n: 100,
            align: 0x20_0000,
            at: 0x20_0000,
        },
    ];
    end(rt, alloc, heap, core, hand, &entries)
}

// A request of 100 bytes with an align has this answer.
fn asks<N: Name, P: Rules, R: Abort>(
    rt: &R,
    heap: &Heap<N>,
    core: &mut Core<N, FirstFit, P>,
    hand: &mut Hand<N>,
    align: u64,
    answer: Result<u64, AlignRefusal>,
)
    requires closes { MayClose core.old.seat hand.old }
    requires cap { large ≤ N.facts.start.cap + 1 }
    ensures closes { MayClose core.new.seat hand.new }
{
    assert!(rt; hand.spare() > 0);
    let found = match aligned_in(heap, core, hand, align, 100) {
        Ok(block) => {
            let at = block.at();
            hand.leave(block);
            Ok(at)
        }
        Err(why) => Err(why),
    };
    assert_eq!(rt; found, answer);
}
