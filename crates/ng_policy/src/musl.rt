//! The choices of musl.
ghost use Rattle.std.specs.Prelude.{◌≡◌, ◌<◌, ◌≤◌, ◌^◌, ◌↔◌, IsTrue, length};
ghost use Rattle.ng_policy.specs.Ask.{AskInRange, IsCount};
ghost use Rattle.ng_policy.specs.Musl.{choices_of, first_choice, fitting, chosen, paired, is_sparse, thinned, musl_slots, IsWorthKeeping};

use crate::ask::{Ask, Spare};
use ng_class::{UNIT, units};

// The numbers of slots to choose from, for the classes 0 to 8.
static SMALL: [[u8; 3]; 9] = [
    [30, 30, 30],
    [31, 15, 15],
    [20, 10, 10],
    [31, 15, 7],
    [25, 12, 6],
    [21, 10, 5],
    [18, 8, 4],
    [31, 15, 7],
    [28, 14, 6],
];

// The same for the higher classes, by the class modulo 4: a number and its halves, down to an odd
// one.
static MEDIUM: [&[u8]; 4] = [
    &[28, 14, 7],
    &[24, 12, 6, 3],
    &[20, 10, 5],
    &[32, 16, 8, 4, 2, 1],
];

/// How many slots a new group has, by musl's rules: fewer while few slots of the class are live.
#[tactic(auto, unfolding(crate::specs::Musl::musl_slots))]
pub fn musl_count(ask: Ask) -> u32
    requires { AskInRange ask }
    ensures value { result ≡ musl_slots ask }
    ensures allowed { IsCount ask.class result }
{
    let slots = paired_slots(ask.class, chosen_slots(ask.class, ask.usage));
    if is_sparse(ask, slots) {
        thinned_slots(ask.class, slots)
    } else {
        slots
    }
}

/// Whether a group whose slots are all free is kept, by musl's rules: the only one of a class whose
/// groups bounce, unless it is a small part of the class.
pub fn musl_keep(spare: Spare) -> bool
    ensures { IsTrue result ↔ IsWorthKeeping spare }
{
    let small = 9 * u64::from(spare.slots) <= spare.usage && spare.slots < 20;
    spare.alone && spare.bouncing && !small
}

// The choice for a class of this usage, halved where it is too many.
#[tactic(auto, unfolding(crate::specs::Musl::chosen))]
fn chosen_slots(class: u32, usage: u64) -> u32
    requires class { class < 48 }
    requires usage { usage < 2 ^ 32 }
    ensures value { result ≡ chosen class usage }
    ensures allowed { IsCount class result }
{
    let slots = first_of(choices(class), usage);
    if class < 9 {
        slots
    } else {
        halved(units(class), slots)
    }
}

// The numbers of slots to choose from.
#[tactic(auto, unfolding(crate::specs::Musl::small_table, crate::specs::Musl::medium_table))]
fn choices(class: u32) -> &'static [u8]
    ensures { result.now ≡ choices_of class }
{
    if class < 9 {
        &SMALL[class as usize]
    } else {
        MEDIUM[(class % 4) as usize]
    }
}

// The first choice that is at most a quarter of the usage, or the last.
fn first_of(choices: &[u8], usage: u64) -> u32
    requires { 1 ≤ length choices.now }
    ensures { result ≡ first_choice choices.now usage }
{
    let last = choices[choices.len() - 1];
    let choice = choices
        .iter()
        .copied()
        .find(|slots| 4 * u64::from(*slots) <= usage);
    u32::from(choice.unwrap_or(last))
}

// The slots, halved until their units are fewer than 65536.
fn halved(units: u64, slots: u32) -> u32
    requires units { units ≤ 8191 }
    requires slots { slots ≤ 32 }
    ensures { result ≡ fitting units slots }
{
    let mut slots = slots;
    while units * u64::from(slots) >= 65536 {
        slots /= 2;
    }
    slots
}

// Two slots in place of one that fits, with the group's 16 bytes, into 2048 bytes.
fn paired_slots(class: u32, slots: u32) -> u32
    requires class { class < 48 }
    requires slots { IsCount class slots }
    ensures value { result ≡ paired class slots }
    ensures allowed { IsCount class result }
{
    if slots == 1 && UNIT * units(class) + UNIT <= 2048 {
        2
    } else {
        slots
    }
}

// Whether the group has more than 2048 bytes, few slots of its class and of the next are live, and
// the class isn't bouncing.
fn is_sparse(ask: Ask, slots: u32) -> bool
    requires ask { AskInRange ask }
    requires slots { IsCount ask.class slots }
    ensures { result ≡ is_sparse ask slots }
{
    let bytes = UNIT * units(ask.class) * u64::from(slots);
    bytes + UNIT > 2048 && 4 * u64::from(slots) > ask.usage + ask.near && !ask.bouncing
}

// The slots of such a group: few where it would be large.
#[tactic(auto, unfolding(crate::specs::Musl::thinned))]
fn thinned_slots(class: u32, slots: u32) -> u32
    requires class { class < 48 }
    requires slots { IsCount class slots }
    ensures value { result ≡ thinned class slots }
    ensures allowed { IsCount class result }
{
    let bytes = UNIT * units(class) * u64::from(slots);
    match class % 4 {
        1 if bytes > 32768 => 2,
        2 if bytes > 16384 => 3,
        0 if bytes > 32768 => 3,
        0 if bytes > 8192 => 5,
        _ => slots,
    }
}
