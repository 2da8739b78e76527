// Calls for slots over musl's rules, and a mapper that gives the lowest runs.
ghost use Rattle.std.specs.Prelude.{◌≡◌, ◌∷◌, [], length};
ghost use Rattle.ng_group.specs.Hands.{IsApart};
ghost use Rattle.ng_group.specs.Tests.{AreParts};
ghost use Rattle.ng_space.specs.Tokens.{HasSlot, Token};

use crate::heaps::{begin, count, keep, parts};
use ng_group::{Core, Tables};
use ng_mapper::FirstFit;
use ng_policy::{Policy, Rules};
use ng_space::{Blank, Hand, Name, Slot, Space};
use std::alloc::Global;
use std::marker::Brand;
use std::process::Abort;
use std::test::Fail;

#[test]
fn four_slots_come_and_go(rt: HostRuntime) -> Result<(), Fail> {
    let alloc = rt.alloc();
    let (blank, tables, mapper) = parts(alloc, 4, Vec::new(alloc))?;
    let rules = Policy::new(count, keep);
    serve_four::<Brand, _, _>(&rt, alloc, blank, tables, mapper, rules)
}

fn serve_four<N: Name, P: Rules + Drop, R: Abort>(
    rt: &R,
    alloc: Global,
    blank: Blank,
    tables: Tables,
    mapper: FirstFit,
    rules: P,
) -> Result<(), Fail>
    requires table { blank.table ≡ N.facts.table }
    requires start { blank.start ≡ N.facts.start }
    requires hands { length blank.rooms ≡ N.facts.hands }
    requires most { N.facts.most ≡ 0 }
    requires parts { AreParts blank tables mapper }
    requires rooms { blank.rooms ≡ 4 ∷ [] }
    requires good { P.good rules }
{
    let (space, mut core, mut hands) = begin::<N, P>(alloc, blank, tables, mapper, rules)?;
    let hand = &mut hands[0];
    assert_eq!(rt; core.class_for(&space, 20), 1);
    let first = served(rt, &space, &mut core, hand, 0x2040);
    let second = served(rt, &space, &mut core, hand, 0x2060);
    let third = served(rt, &space, &mut core, hand, 0x2080);
    let fourth = served(rt, &space, &mut core, hand, 0x20a0);
    assert_eq!(rt; core.live_pages(), 2);
    core.return_slot(&space, hand, first);
    core.return_slot(&space, hand, second);
    core.return_slot(&space, hand, third);
    core.return_slot(&space, hand, fourth);
    assert_eq!(rt; core.live_pages(), 1);
    Ok(())
}

// A slot of class 1, which starts there.
fn served<N: Name, P: Rules, R: Abort>(
    rt: &R,
    space: &Space<N>,
    core: &mut Core<N, FirstFit, P>,
    hand: &mut Hand<N>,
    start: u64,
) -> Slot<N>
    ensures slot { HasSlot hand.new result }
    ensures apart { (token : Token) → HasSlot hand.old token → IsApart token result }
    ensures others { (token : Token) → HasSlot hand.old token → HasSlot hand.new token }
{
    match core.alloc_slot(space, hand, 1, 20) {
        Ok(slot) => {
            assert_eq!(rt; slot.start(), start);
            slot
        }
        Err(_excuse) => panic!(rt; "no slot"),
    }
}

#[test]
fn a_refused_call_leaves_an_excuse(rt: HostRuntime) -> Result<(), Fail> {
    let alloc = rt.alloc();
    let (blank, tables, mapper) = parts(alloc, 4, vec![in alloc; 2]?)?;
    let rules = Policy::new(count, keep);
    refuse_one::<Brand, _, _>(&rt, alloc, blank, tables, mapper, rules)
}

// The mapper gives a page for an area, and refuses the call for the group's run.
fn refuse_one<N: Name, P: Rules + Drop, R: Abort>(
    rt: &R,
    alloc: Global,
    blank: Blank,
    tables: Tables,
    mapper: FirstFit,
    rules: P,
) -> Result<(), Fail>
    requires table { blank.table ≡ N.facts.table }
    requires start { blank.start ≡ N.facts.start }
    requires hands { length blank.rooms ≡ N.facts.hands }
    requires most { N.facts.most ≡ 0 }
    requires parts { AreParts blank tables mapper }
    requires rooms { blank.rooms ≡ 4 ∷ [] }
    requires good { P.good rules }
{
    let (space, mut core, mut hands) = begin::<N, P>(alloc, blank, tables, mapper, rules)?;
    let hand = &mut hands[0];
    match core.alloc_slot(&space, hand, 1, 20) {
        Ok(_slot) => panic!(rt; "a slot without a run"),
        Err(excuse) => {
            assert_eq!(rt; excuse.number(), 1);
            assert_eq!(rt; core.live_pages(), 1);
            space.enter_no_memory(hand, 20, excuse);
        }
    }
    let slot = served(rt, &space, &mut core, hand, 0x2040);
    core.return_slot(&space, hand, slot);
    Ok(())
}
