//! How large a new group is, and how many of its slots are in use at once.
ghost use Rattle.std.specs.Prelude.{◌≡◌, ◌+◌, ◌*◌, ◌^◌, ◌<◌, ◌≤◌, ◌↔◌, IsTrue};
ghost use Rattle.ng_class.specs.Class.{units_of};
ghost use Rattle.ng_policy.specs.Ask.{AskInRange, IsCount};
ghost use Rattle.ng_shelf.specs.Shape.{CrossesPages, IsFirstActive, IsNestedSize, IsOnly, IsRaised, first_active_of, group_bytes, makes_one, pages_of, shape_of};

use ng_class::{IB, UNIT, units};
use ng_meta::PAGE_BYTES;
use ng_policy::Ask;

/// The most bytes of a group that lies in a slot of another one.
const NESTED: u64 = 2048;

/// The slots of a new group that has a run of its own, and the pages of that run.
#[derive(Clone, Copy, Debug, PartialEq, Eq)]
pub struct RunShape {
    pub count: u32,
    pub pages: u64,
}

/// Whether a new group of so many slots lies in a slot of another group, as it has at most 2048 bytes with the 16 of its
/// own.
pub fn is_nested_size(class: u32, count: u32) -> bool
    requires class { class < 48 }
    requires count { IsCount class count }
    ensures { IsTrue result ↔ IsNestedSize class count }
{
    UNIT * units(class) * u64::from(count) + UNIT <= NESTED
}

/// The shape of a new group with a run of its own, for a block of `bytes` bytes, where the policy wants `count` slots: so
/// many slots in as few pages as hold them; or, where there would be few and one is no worse, one slot, in as few pages
/// as hold the block.
#[tactic(auto, unfolding(crate::specs::Shape::shape_of))]
pub fn run_shape(ask: &Ask, bytes: u64, count: u32) -> RunShape
    requires ask { AskInRange ask.now }
    requires bytes { bytes + 4 ≤ 16 * units_of ask.now.class }
    requires count { IsCount ask.now.class count }
    ensures shape { result ≡ shape_of ask.now bytes count }
    ensures slots { IsCount ask.now.class result.count }
    ensures some { 1 ≤ result.pages }
    ensures most { result.pages ≤ 256 }
    ensures holds { bytes + 20 ≤ 4096 * result.pages }
    ensures fits { 1 < result.count → group_bytes ask.now.class result.count ≤ 4096 * result.pages }
{
    if makes_one(ask, bytes, count) {
        RunShape {
            count: 1,
            pages: pages_for(bytes + UNIT + IB),
        }
    } else {
        let size = UNIT * units(ask.class);
        RunShape {
            count,
            pages: pages_for(size * u64::from(count) + UNIT),
        }
    }
}

/// The highest index of the slots of a new group that are in use from the start: those that end in the first page, but
/// slot 0 at least. `count` is the group's number of slots.
pub fn first_active(class: u32, count: u32) -> u32
    requires class { class < 48 }
    requires count { IsCount class count }
    ensures value { result ≡ first_active_of class count }
    ensures first { IsFirstActive class count result }
    ensures nested { IsNestedSize class count → result + 1 ≡ count }
{
    let fit = (PAGE_BYTES - UNIT) / (UNIT * units(class));
    (fit.saturating_sub(1) as u32).min(count - 1)
}

/// The highest index in use after the one in use now, `active`, was raised: at most `last`, the greatest of the group.
#[tactic(auto, using(crate::proofs::ShapeLemmas::raised_unique))]
pub fn raised(class: u32, active: u32, last: u32) -> u32
    requires class { class < 48 }
    requires active { active < last }
    requires last { last < 32 }
    ensures raised { IsRaised class active last result }
    ensures only { IsOnly (IsRaised class active last) result }
    ensures within { result ≤ last }
{
    let mut index = active + 1;
    while index < last && !crosses_pages(class, index + 1) {
        index += 1;
    }
    index
}

// Whether the policy's slots are left for one slot on a run for the block alone.
#[tactic(auto, unfolding(crate::specs::Shape::makes_one, crate::specs::Shape::is_no_worse))]
fn makes_one(ask: &Ask, bytes: u64, count: u32) -> bool
    requires ask { AskInRange ask.now }
    requires bytes { bytes + 4 ≤ 16 * units_of ask.now.class }
    requires count { IsCount ask.now.class count }
    ensures { result ≡ makes_one ask.now bytes count }
{
    if ask.bouncing || count > 7 {
        return false;
    }
    let own = PAGE_BYTES * pages_for(bytes + UNIT + IB);
    own < UNIT * units(ask.class) + UNIT
        || own >= 4 * PAGE_BYTES && 2 * u64::from(count) > ask.usage + ask.near
}

// The pages that hold so many bytes.
fn pages_for(bytes: u64) -> u64
    requires { bytes < 2 ^ 32 }
    ensures { result ≡ pages_of bytes }
{
    bytes.div_ceil(PAGE_BYTES)
}

// Whether a slot's first byte and its last lie in two pages, where the group begins with a page.
fn crosses_pages(class: u32, slot: u32) -> bool
    requires class { class < 48 }
    requires slot { slot ≤ 32 }
    ensures { IsTrue result ↔ CrossesPages class slot }
{
    let size = UNIT * units(class);
    let start = UNIT + size * u64::from(slot);
    start / PAGE_BYTES != (start + size - 1) / PAGE_BYTES
}
