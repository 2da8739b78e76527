// Random calls, beside what an independent model answered to them.
ghost use Rattle.std.specs.Prelude.{◌≡◌, ◌+◌, ◌<◌, ◌≤◌, ◌∷◌, [], IfErr, IfOk, length, vec_capacity};
ghost use Rattle.ng_group.specs.Hands.{IsApart};
ghost use Rattle.ng_group.specs.Tests.{AreParts, HasAll};
ghost use Rattle.ng_space.specs.Passed.{HasExcuse};
ghost use Rattle.ng_space.specs.Tokens.{HasSlot, Token};

use crate::heaps::{begin, count, keep, parts};
use ng_class::THRESHOLD;
use ng_group::{Core, Tables};
use ng_mapper::FirstFit;
use ng_policy::{Policy, Rules};
use ng_space::{Blank, Excuse, Hand, Name, Slot, Space};
use std::alloc::Global;
use std::marker::Brand;
use std::process::Abort;
use std::test::Fail;

const CALLS: u64 = 100_000;

/// The most slots that the calls keep.
const MOST: usize = 1500;

/// The model's digests of its answers, after each ten thousand calls.
const DIGESTS: [u64; 10] = [
    0x968b_9972_8aac_20ba,
    0x854c_e917_14f4_3d90,
    0x36e9_7cb0_2371_07a8,
    0xb636_da17_86f6_5f64,
    0xfe5a_07b2_f997_c77a,
    0x14e5_4978_68b7_f522,
    0x48fa_2567_f947_d4f7,
    0xd4e8_2289_2729_ad1e,
    0xd1c4_92de_1427_c382,
    0x8f36_dbea_5308_2d5a,
];

// Numbers of a linear congruence.
#[derive(Drop)]
struct Draws {
    state: u64,
}

impl Draws {
    fn next(&mut self) -> u64 {
        self.state = self
            .state
            .wrapping_mul(6_364_136_223_846_793_005)
            .wrapping_add(1_442_695_040_888_963_407);
        self.state >> 33
    }
}

// The bytes of a request: mostly few, sometimes more than a class serves.
fn size_of(kind: u64, draw: u64) -> u64
    ensures { result < 9223372036854771711 }
{
    match kind {
        0..=9 => draw % 256,
        10..=13 => draw % 4096,
        14 => draw % 65_536,
        _ => THRESHOLD + draw % 1_200_000,
    }
}

#[test]
fn answers_are_the_models(rt: HostRuntime) -> Result<(), Fail> {
    let alloc = rt.alloc();
    let (blank, tables, mapper) = parts(alloc, CALLS, Vec::new(alloc))?;
    let rules = Policy::new(count, keep);
    run::<Brand, _, _>(&rt, alloc, blank, tables, mapper, rules)
}

fn run<N: Name, P: Rules + Drop, R: Abort>(
    rt: &R,
    alloc: Global,
    blank: Blank,
    tables: Tables,
    mapper: FirstFit,
    rules: P,
) -> Result<(), Fail>
    requires table { blank.table ≡ N.facts.table }
    requires start { blank.start ≡ N.facts.start }
    requires hands { length blank.rooms ≡ N.facts.hands }
    requires most { N.facts.most ≡ 0 }
    requires parts { AreParts blank tables mapper }
    requires rooms { blank.rooms ≡ CALLS ∷ [] }
    requires good { P.good rules }
{
    let (space, mut core, mut hands) = begin::<N, P>(alloc, blank, tables, mapper, rules)?;
    let mut slots = Vec::with_capacity(alloc, MOST)?;
    let hand = &mut hands[0];
    let mut draws = Draws { state: 1 };
    let mut digest = 0u64;
    for call in 0..CALLS {
        let answer = call_once(rt, &space, &mut core, hand, &mut slots, &mut draws);
        digest = digest.wrapping_mul(31).wrapping_add(answer);
        if call % 10_000 == 9_999 {
            assert_eq!(rt;
                digest,
                DIGESTS[(call / 10_000) as usize],
                "after call {call}"
            );
        }
    }
    return_all(&space, &mut core, hand, slots);
    Ok(())
}

// A slot is got or goes back, as two draws decide. The answer is where it starts or the number of the excuse, and the
// live pages after a return.
fn call_once<N: Name, P: Rules, R: Abort>(
    rt: &R,
    space: &Space<N>,
    core: &mut Core<N, FirstFit, P>,
    hand: &mut Hand<N>,
    slots: &mut Vec<Slot<N>>,
    draws: &mut Draws,
) -> u64
    requires slots { HasAll hand.old slots.old.items }
    requires few { length slots.old.items ≤ MOST }
    requires room { MOST ≤ vec_capacity slots.old }
    requires cap { 9223372036854771710 ≤ N.facts.start.cap }
    ensures slots { HasAll hand.new slots.new.items }
    ensures few { length slots.new.items ≤ MOST }
    ensures room { MOST ≤ vec_capacity slots.new }
{
    let (first, second) = (draws.next(), draws.next());
    let len = slots.len();
    if len > 0 && (first % 2 == 0 || len == MOST) {
        return_one(space, core, hand, slots, (second % len as u64) as usize);
        return core.live_pages();
    }
    match request(space, core, hand, size_of(first / 2 % 16, second)) {
        Ok(slot) => {
            let start = slot.start();
            slots.push_reserved(slot);
            start
        }
        Err(excuse) => {
            let number = excuse.number();
            assert!(rt; hand.spare() > 0);
            space.enter_no_memory(hand, 0, excuse);
            number
        }
    }
}

// A slot for so many bytes.
fn request<N: Name, P: Rules>(
    space: &Space<N>,
    core: &mut Core<N, FirstFit, P>,
    hand: &mut Hand<N>,
    bytes: u64,
) -> Result<Slot<N>, Excuse<N>>
    requires bytes { bytes < 9223372036854771711 }
    requires cap { 9223372036854771710 ≤ N.facts.start.cap }
    ensures slot { IfOk result (HasSlot hand.new) }
    ensures apart { IfOk result (λ slot. (token : Token) → HasSlot hand.old token → IsApart token slot) }
    ensures others { (token : Token) → HasSlot hand.old token → HasSlot hand.new token }
    ensures excuse { IfErr result (HasExcuse hand.new) }
{
    if bytes >= THRESHOLD {
        return core.alloc_lone(space, hand, bytes);
    }
    let class = core.class_for(space, bytes);
    core.alloc_slot(space, hand, class, bytes)
}

// The slot at a place goes back. The last one takes its place.
fn return_one<N: Name, P: Rules>(
    space: &Space<N>,
    core: &mut Core<N, FirstFit, P>,
    hand: &mut Hand<N>,
    slots: &mut Vec<Slot<N>>,
    place: usize,
)
    requires slots { HasAll hand.old slots.old.items }
    requires place { place < length slots.old.items }
    ensures slots { HasAll hand.new slots.new.items }
    ensures fewer { length slots.new.items + 1 ≡ length slots.old.items }
    ensures room { vec_capacity slots.new ≡ vec_capacity slots.old }
{
    core.return_slot(space, hand, slots.swap_remove(place));
}

fn return_all<N: Name, P: Rules>(
    space: &Space<N>,
    core: &mut Core<N, FirstFit, P>,
    hand: &mut Hand<N>,
    mut slots: Vec<Slot<N>>,
)
    requires slots { HasAll hand.old slots.items }
{
    while slots.len() > 0 {
        return_one(space, core, hand, &mut slots, 0);
    }
    slots.destroy_empty();
}
