// What is done to a heap's core.
ghost use Rattle.std.specs.Prelude.{◌≡◌, ◌+◌, ◌<◌, ◌≤◌, ◌∷◌, [], length, vec_capacity};
ghost use Rattle.std.specs.Bool.{OnTrue};
ghost use Rattle.ng_group.specs.Tests.{AreParts, HasAll};
ghost use Rattle.ng_space.specs.Tokens.{HasSlot, Token};

use crate::heap::{begin, get};
use crate::steps::{exchanges, loads, stores};
use crate::words::{Asked, Pattern};
use ng_group::{Core, Tables};
use ng_mapper::FirstFit;
use ng_policy::Rules;
use ng_space::{Blank, Hand, Name, Slot, Space};
use ng_terms::Host;
use std::alloc::Global;

/// The slots that a round of churn gets: more than the largest group of their class has.
const ROUND: u64 = 60;

/// Does what is asked to a new heap. It answers whether all calls were served.
pub fn run<N: Name, P: Rules + Drop>(
    alloc: Global,
    blank: Blank,
    tables: Tables,
    mapper: FirstFit,
    rules: P,
    asked: Asked,
) -> Result<bool, Host>
    requires table { blank.table ≡ N.facts.table }
    requires start { blank.start ≡ N.facts.start }
    requires hands { length blank.rooms ≡ N.facts.hands }
    requires most { N.facts.most ≡ 0 }
    requires parts { AreParts blank tables mapper }
    requires rooms { blank.rooms ≡ 1 ∷ [] }
    requires good { P.good rules }
{
    let (space, mut core, mut hands) = begin::<N, P>(alloc, blank, tables, mapper, rules)?;
    let hand = &mut hands[0];
    match asked.pattern {
        Pattern::Nothing => Ok(true),
        Pattern::Loads => {
            loads(&space, hand, asked.count);
            Ok(true)
        }
        Pattern::Stores | Pattern::Exchanges | Pattern::Steady => {
            Ok(beside_one(&space, &mut core, hand, asked))
        }
        Pattern::Churn => churn(alloc, &space, &mut core, hand, asked.count / (2 * ROUND)),
    }
}

// What is asked, with one slot that stays.
fn beside_one<N: Name, P: Rules>(
    space: &Space<N>,
    core: &mut Core<N, FirstFit, P>,
    hand: &mut Hand<N>,
    asked: Asked,
) -> bool
    requires spare { 1 ≤ hand.old.spare }
{
    let Some(slot) = get(space, core, hand) else {
        return false;
    };
    match asked.pattern {
        Pattern::Stores => {
            stores(space, hand, &slot, asked.count);
            core.return_slot(space, hand, slot);
            true
        }
        Pattern::Exchanges => match exchanges(space, hand, slot, asked.count) {
            Some(slot) => {
                core.return_slot(space, hand, slot);
                true
            }
            None => false,
        },
        _ => {
            let served = steady(space, core, hand, &slot, asked.count);
            core.return_slot(space, hand, slot);
            served
        }
    }
}

// A slot comes and goes back so often. The other one stays.
fn steady<N: Name, P: Rules>(
    space: &Space<N>,
    core: &mut Core<N, FirstFit, P>,
    hand: &mut Hand<N>,
    kept: &Slot<N>,
    count: u64,
) -> bool
    requires spare { 1 ≤ hand.old.spare }
    requires kept { HasSlot hand.old kept.now }
    ensures kept { HasSlot hand.new kept.now }
{
    for _ in 0..count {
        let Some(slot) = get(space, core, hand) else {
            return false;
        };
        core.return_slot(space, hand, slot);
    }
    true
}

// So many rounds of slots that come and go back.
fn churn<N: Name, P: Rules>(
    alloc: Global,
    space: &Space<N>,
    core: &mut Core<N, FirstFit, P>,
    hand: &mut Hand<N>,
    rounds: u64,
) -> Result<bool, Host>
    requires spare { 1 ≤ hand.old.spare }
{
    let Ok(mut slots) = Vec::with_capacity(alloc, ROUND as usize) else {
        return Err(Host);
    };
    for _ in 0..rounds {
        let served = fill(space, core, hand, &mut slots);
        return_all(space, core, hand, &mut slots);
        if !served {
            slots.destroy_empty();
            return Ok(false);
        }
    }
    slots.destroy_empty();
    Ok(true)
}

// Gets the slots of a round. It answers whether all came.
fn fill<N: Name, P: Rules>(
    space: &Space<N>,
    core: &mut Core<N, FirstFit, P>,
    hand: &mut Hand<N>,
    slots: &mut Vec<Slot<N>>,
) -> bool
    requires spare { 1 ≤ hand.old.spare }
    requires none { slots.old.items ≡ [] }
    requires room { ROUND ≤ vec_capacity slots.old }
    ensures slots { HasAll hand.new slots.new.items }
    ensures room { ROUND ≤ vec_capacity slots.new }
    ensures spare { OnTrue result (1 ≤ hand.new.spare) }
{
    for _ in 0..ROUND {
        let Some(slot) = get(space, core, hand) else {
            return false;
        };
        slots.push_reserved(slot);
    }
    true
}

// All slots go back, in another order than they came.
fn return_all<N: Name, P: Rules>(
    space: &Space<N>,
    core: &mut Core<N, FirstFit, P>,
    hand: &mut Hand<N>,
    slots: &mut Vec<Slot<N>>,
)
    requires slots { HasAll hand.old slots.old.items }
    requires room { ROUND ≤ vec_capacity slots.old }
    ensures none { slots.new.items ≡ [] }
    ensures room { ROUND ≤ vec_capacity slots.new }
    ensures spare { hand.new.spare ≡ hand.old.spare }
{
    while slots.len() > 0 {
        return_first(space, core, hand, slots);
    }
}

// The first slot goes back. The last one takes its place.
fn return_first<N: Name, P: Rules>(
    space: &Space<N>,
    core: &mut Core<N, FirstFit, P>,
    hand: &mut Hand<N>,
    slots: &mut Vec<Slot<N>>,
)
    requires some { 0 < length slots.old.items }
    requires slots { HasAll hand.old slots.old.items }
    ensures slots { HasAll hand.new slots.new.items }
    ensures fewer { length slots.new.items + 1 ≡ length slots.old.items }
    ensures room { vec_capacity slots.new ≡ vec_capacity slots.old }
    ensures spare { hand.new.spare ≡ hand.old.spare }
{
    core.return_slot(space, hand, slots.swap_remove(0));
}
