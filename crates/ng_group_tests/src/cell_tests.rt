// What the core stores that no clause tells: the cells are read by a hand.
ghost use Rattle.std.specs.Prelude.{◌≡◌, ◌∷◌, [], length};
ghost use Rattle.ng_group.specs.Hands.{IsApart};
ghost use Rattle.ng_group.specs.Tests.{AreParts};
ghost use Rattle.ng_space.specs.Tokens.{HasSlot, Token};

use crate::heaps::{begin, count, keep, parts};
use ng_class::{UNIT, units};
use ng_group::{Core, Tables};
use ng_mapper::FirstFit;
use ng_policy::{Policy, Rules};
use ng_space::{Blank, Hand, Name, Slot, Space};
use std::alloc::Global;
use std::marker::Brand;
use std::process::Abort;
use std::test::Fail;

#[test]
fn carrying_slots_have_their_headers(rt: HostRuntime) -> Result<(), Fail> {
    let alloc = rt.alloc();
    let (blank, tables, mapper) = parts(alloc, 4, Vec::new(alloc))?;
    let rules = Policy::new(count, keep);
    nest_twice::<Brand, _, _>(&rt, alloc, blank, tables, mapper, rules)
}

// A group of class 1 in slot 0 of a group of class 15, and one of class 0 in its slot 1.
fn nest_twice<N: Name, P: Rules + Drop, R: Abort>(
    rt: &R,
    alloc: Global,
    blank: Blank,
    tables: Tables,
    mapper: FirstFit,
    rules: P,
) -> Result<(), Fail>
    requires table { blank.table ≡ N.facts.table }
    requires start { blank.start ≡ N.facts.start }
    requires hands { length blank.rooms ≡ N.facts.hands }
    requires most { N.facts.most ≡ 0 }
    requires parts { AreParts blank tables mapper }
    requires rooms { blank.rooms ≡ 4 ∷ [] }
    requires good { P.good rules }
{
    let (space, mut core, mut hands) = begin::<N, P>(alloc, blank, tables, mapper, rules)?;
    let hand = &mut hands[0];
    let first = slot_at(rt, &space, &mut core, hand, 1, 20, 0x2040);
    let second = slot_at(rt, &space, &mut core, hand, 0, 10, 0x2230);
    check_indices(rt, &space, hand);
    check_headers(rt, &space, hand);
    core.return_slot(&space, hand, first);
    core.return_slot(&space, hand, second);
    Ok(())
}

// The active index of each group, which lies at its start.
fn check_indices<N: Name, R: Abort>(rt: &R, space: &Space<N>, hand: &mut Hand<N>)
    ensures slots { (token : Token) → HasSlot hand.old token → HasSlot hand.new token }
{
    check_word(rt, space, hand, 0x2008, 1);
    check_word(rt, space, hand, 0x2018, 1);
    check_word(rt, space, hand, 0x2028, 1);
    check_word(rt, space, hand, 0x2038, 14);
    check_word(rt, space, hand, 0x2228, 29);
}

// The header of each slot that carries a group: 6 in its reserved field, its index and its offset. The fourth is that of slot
// 1 of the group of class 15.
fn check_headers<N: Name, R: Abort>(rt: &R, space: &Space<N>, hand: &mut Hand<N>)
    ensures slots { (token : Token) → HasSlot hand.old token → HasSlot hand.new token }
{
    check_word(rt, space, hand, 0x200c, 0xc000);
    check_word(rt, space, hand, 0x201c, 0xc000);
    check_word(rt, space, hand, 0x202c, 0xc000);
    check_word(rt, space, hand, 0x221c, 0x001f_c100);
}

#[test]
fn an_active_index_is_raised(rt: HostRuntime) -> Result<(), Fail> {
    let alloc = rt.alloc();
    let (blank, tables, mapper) = parts(alloc, 4, Vec::new(alloc))?;
    let rules = Policy::new(count, keep);
    raise_once::<Brand, _, _>(&rt, alloc, blank, tables, mapper, rules)
}

// Three slots of a group of seven are in use from the start, and the fourth brings in all.
fn raise_once<N: Name, P: Rules + Drop, R: Abort>(
    rt: &R,
    alloc: Global,
    blank: Blank,
    tables: Tables,
    mapper: FirstFit,
    rules: P,
) -> Result<(), Fail>
    requires table { blank.table ≡ N.facts.table }
    requires start { blank.start ≡ N.facts.start }
    requires hands { length blank.rooms ≡ N.facts.hands }
    requires most { N.facts.most ≡ 0 }
    requires parts { AreParts blank tables mapper }
    requires rooms { blank.rooms ≡ 4 ∷ [] }
    requires good { P.good rules }
{
    let (space, mut core, mut hands) = begin::<N, P>(alloc, blank, tables, mapper, rules)?;
    let hand = &mut hands[0];
    let first = slot_at(rt, &space, &mut core, hand, 20, 1000, 0x2010);
    let second = slot_at(rt, &space, &mut core, hand, 20, 1000, 0x2490);
    let third = slot_at(rt, &space, &mut core, hand, 20, 1000, 0x2910);
    check_word(rt, &space, hand, 0x2008, 2);
    let fourth = slot_at(rt, &space, &mut core, hand, 20, 1000, 0x2d90);
    check_word(rt, &space, hand, 0x2008, 6);
    core.return_slot(&space, hand, first);
    core.return_slot(&space, hand, second);
    core.return_slot(&space, hand, third);
    core.return_slot(&space, hand, fourth);
    Ok(())
}

// A slot of a class, which starts there.
fn slot_at<N: Name, P: Rules, R: Abort>(
    rt: &R,
    space: &Space<N>,
    core: &mut Core<N, FirstFit, P>,
    hand: &mut Hand<N>,
    class: u32,
    bytes: u64,
    start: u64,
) -> Slot<N>
    ensures slot { HasSlot hand.new result }
    ensures apart { (token : Token) → HasSlot hand.old token → IsApart token result }
    ensures others { (token : Token) → HasSlot hand.old token → HasSlot hand.new token }
{
    assert!(rt; class < 48 && bytes < 1024);
    assert!(rt; bytes + 4 <= UNIT * units(class));
    match core.alloc_slot(space, hand, class, bytes) {
        Ok(slot) => {
            assert_eq!(rt; slot.start(), start);
            slot
        }
        Err(_excuse) => panic!(rt; "no slot"),
    }
}

// The hand loads this word at an address in the space.
fn check_word<N: Name, R: Abort>(rt: &R, space: &Space<N>, hand: &mut Hand<N>, addr: u64, word: u64)
    ensures slots { (token : Token) → HasSlot hand.old token → HasSlot hand.new token }
{
    assert!(rt; addr % 4 == 0);
    assert!(rt; addr < 4096 * space.start().pages);
    assert_eq!(rt; space.load(hand, addr), word);
}
