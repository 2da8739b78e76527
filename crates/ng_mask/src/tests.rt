ghost use Rattle.std.specs.Prelude.{◌≡◌, ◌≤◌, ◌+◌, ◌∷◌, ◌++◌, []};
ghost use Rattle.ng_view.specs.Layouts.{InRange};
ghost use Rattle.ng_space.specs.Callers.{fresh_caller, fresh_callers};
ghost use Rattle.ng_space.specs.Entries.{IsLegalAnytime};
ghost use Rattle.ng_space.specs.Tests.{HasEntered};

use crate::{Pop, pop};
use ng_space::{Blank, Entry, Hand, Image, Name, Space, Start};
use ng_terms::LARGE;
use std::alloc::Global;
use std::marker::Brand;
use std::process::Abort;
use std::sync::Wait;
use std::test::Fail;
use std::thread::{Threads, join};

const PAGES: u64 = 16;

// Where the first meta of page 1 is.
const META: u64 = 0x1018;

fn start() -> Start
    ensures range { InRange result }
    ensures pages { result.pages ≡ PAGES }
{
    Start {
        pages: PAGES,
        lower: 0x1000,
        upper: 0x1_0000,
        secret: 0,
        refusals: 0,
        cap: 0,
    }
}

fn too_large(count: u64) -> Entry
    requires { 1 ≤ count }
    ensures { IsLegalAnytime result }
{
    Entry::TooLarge {
        count,
        size: LARGE,
        align: 16,
    }
}

// A pop from a meta that has no group.
fn finds_none<N: Name, R: Abort>(rt: &R, space: &Space<N>, hand: &mut Hand<N>)
    requires pages { N.facts.start.pages ≡ PAGES }
    ensures hand { HasEntered hand.old hand.new }
    ensures spare { hand.new.spare ≡ hand.old.spare }
    ensures entries { hand.new.entries ≡ hand.old.entries }
{
    match pop(space, hand, META, 1) {
        Pop::Other { tag } => assert_eq!(rt; tag, 0),
        Pop::Bare | Pop::Lost => panic!(rt; "the meta has no group"),
        Pop::Won(_slot) => panic!(rt; "the meta has no slot"),
    }
}

#[test]
fn a_pop_finds_no_group(rt: HostRuntime) -> Result<(), Fail> {
    let alloc = rt.alloc();
    let blank = Blank::new(alloc, start(), &[4])?;
    pop_once::<Brand, _>(&rt, alloc, blank)
}

fn pop_once<N: Name, R: Abort>(rt: &R, alloc: Global, blank: Blank) -> Result<(), Fail>
    requires table { blank.table ≡ N.facts.table }
    requires start { blank.start ≡ N.facts.start }
    requires pages { blank.start.pages ≡ PAGES }
    requires rooms { blank.rooms ≡ 4 ∷ [] }
    requires hands { N.facts.hands ≡ 1 }
{
    let (space, lock, mut hands) = Space::<N>::open(alloc, blank)?;
    let hand = &mut hands[0];
    finds_none(rt, &space, hand);
    space.enter(hand, too_large(1));
    assert_eq!(rt; hand.spare(), 3);
    let (image, books) = space.close(lock, hands);
    assert_eq!(rt; books.len(), 1);
    assert_eq!(rt; books[0].entries(), [too_large(1)].as_slice());
    all_zero(rt, &image);
    Ok(())
}

// Each cell of a space of 16 pages is 0.
fn all_zero<R: Abort>(rt: &R, image: &Image)
    requires { image.now.pages ≡ PAGES }
{
    for cell in 0..1024 * PAGES {
        assert_eq!(rt; image.word(4 * cell), 0, "cell {cell}");
    }
}

#[test]
fn two_threads_pop(rt: HostRuntime) -> Result<(), Fail> {
    let alloc = rt.alloc();
    let blank = Blank::new(alloc, start(), &[2, 1])?;
    pop_in_two::<Brand, _>(&rt, alloc, blank)
}

fn pop_in_two<N: Name + Send + Sync, R: Threads + Wait + Abort + Sync>(
    rt: &R,
    alloc: Global,
    blank: Blank,
) -> Result<(), Fail>
    requires table { blank.table ≡ N.facts.table }
    requires start { blank.start ≡ N.facts.start }
    requires pages { blank.start.pages ≡ PAGES }
    requires rooms { blank.rooms ≡ 2 ∷ 1 ∷ [] }
    requires hands { N.facts.hands ≡ 2 }
{
    let (space, lock, hands) = Space::<N>::open(alloc, blank)?;
    let (first, second) = two_hands(hands);
    let (first, second) = join(
        rt,
        || -> Hand<N>
            requires pages { N.facts.start.pages ≡ PAGES }
            requires spare { 1 ≤ first.spare }
            ensures { HasEntered first result }
        { popped(rt, &space, first, too_large(1)) },
        || -> Hand<N>
            requires pages { N.facts.start.pages ≡ PAGES }
            requires spare { 1 ≤ second.spare }
            ensures { HasEntered second result }
        { popped(rt, &space, second, too_large(2)) },
    );
    let (image, books) = space.close(lock, vec![in alloc; first, second]?);
    assert_eq!(rt; books.len(), 2);
    assert_eq!(rt; books[0].entries(), [too_large(1)].as_slice());
    assert_eq!(rt; books[1].entries(), [too_large(2)].as_slice());
    all_zero(rt, &image);
    Ok(())
}

fn two_hands<N: Name>(mut hands: Vec<Hand<N>>) -> (Hand<N>, Hand<N>)
    requires { hands.items ≡ fresh_callers 1 (2 ∷ 1 ∷ []) }
    ensures first { result.0 ≡ fresh_caller 1 2 }
    ensures second { result.1 ≡ fresh_caller 2 1 }
{
    let Some(second) = hands.pop() else {
        unreachable!()
    };
    let Some(first) = hands.pop() else {
        unreachable!()
    };
    (first, second)
}

// The hand after a pop that finds no group, and with one entry more.
fn popped<N: Name, R: Abort>(rt: &R, space: &Space<N>, mut hand: Hand<N>, entry: Entry) -> Hand<N>
    requires pages { N.facts.start.pages ≡ PAGES }
    requires spare { 1 ≤ hand.spare }
    requires legal { IsLegalAnytime entry }
    ensures { HasEntered hand result }
{
    finds_none(rt, space, &mut hand);
    space.enter(&mut hand, entry);
    hand
}
