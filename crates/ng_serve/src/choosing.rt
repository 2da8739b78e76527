//! Which group of a ring serves next, by the freed masks of all.
ghost use Rattle.std.specs.Prelude.{◌≡◌, ◌⊎◌, ◌<◌, Contains, IfNone, IfSome};
ghost use Rattle.ng_meta.specs.Place.{IsMetaPlace};
ghost use Rattle.ng_view.specs.Lists.{Among};
ghost use Rattle.ng_lists.specs.Rings.{ring_of};
ghost use Rattle.ng_view.specs.Fetches.{HasGroup};
ghost use Rattle.ng_serve.specs.Choices.{FindsAllBare, FindsBare, IsChoice, ReadsMasks, RingEmpty};
ghost use Rattle.ng_serve.specs.Groups.{AreInSpace, RingLives};
ghost use Rattle.ng_serve.specs.Reads.{Notes};

use crate::group::{active_index, group_of};
use ng_class::{all_bits, lowest_bit};
use ng_lists::Rings;
use ng_meta::{AVAIL, FREED};
use ng_space::{LockSeat, Name, Space};

/// A group with freed slots, by its meta, and the lowest of these slots.
#[derive(Clone, Copy, Debug, PartialEq, Eq)]
pub struct Choice {
    pub meta: u64,
    pub lowest: u32,
}

/// How well a group with freed slots serves.
#[derive(Clone, Copy, Debug, PartialEq, Eq)]
enum Rank {
    /// A freed slot is in use, and not all slots are freed.
    Partly,
    /// A freed slot is in use, and all slots are freed.
    Wholly,
    /// No freed slot is in use.
    Unused,
}

/// A group that may be chosen, and how well it serves.
#[derive(Clone, Copy, Debug, PartialEq, Eq)]
struct Offer {
    rank: Rank,
    choice: Choice,
}

impl Offer {
    // Of two offers the better, and of like ones the earlier.
    fn or_earlier(self, earlier: Option<Offer>) -> Offer
        ensures { (result ≡ self) ⊎ (earlier ≡ Some result) }
    {
        match earlier {
            None => self,
            Some(kept) => {
                if kept.rank == Rank::Unused && self.rank == Rank::Wholly {
                    self
                } else {
                    kept
                }
            }
        }
    }
}

/// The group of a ring whose freed slots are to be taken, of those from `start` on and once round:
/// the first of which a freed slot is in use and not all are freed; else the first of which a freed
/// slot is in use; else the first of which a slot is freed. There is none where each was read to be
/// bare.
pub fn choose<N: Name>(
    space: &Space<N>,
    seat: &mut LockSeat<N>,
    rings: &Rings,
    class: u32,
    start: u64,
) -> Option<Choice>
    requires class { class < 48 }
    requires start { Contains (ring_of rings.now class) start }
    requires pages { rings.now.pages ≡ N.facts.start.pages }
    requires live { RingLives seat.old.desk.groups (ring_of rings.now class) class }
    requires bare { RingEmpty seat.old (ring_of rings.now class) }
    requires inside { AreInSpace N.facts.start.pages seat.old.desk.groups }
    ensures notes { Notes seat.old seat.new }
    ensures member { IfSome result (λ choice. Contains (ring_of rings.now class) choice.meta) }
    ensures freed { IfSome result (IsChoice seat.new) }
    ensures none { IfNone result (FindsAllBare seat.old (ring_of rings.now class) seat.new) }
{
    rings.stand_once();
    let mut best = None;
    let mut meta = start;
    loop {
        if let Some(offer) = look(space, seat, meta) {
            if offer.rank == Rank::Partly {
                return Some(offer.choice);
            }
            best = Some(offer.or_earlier(best));
        }
        meta = rings.next(meta);
        if meta == start {
            return Some(best?.choice);
        }
    }
}

// What the group of a meta offers, whose avail mask is noted as 0: nothing where no slot is freed.
fn look<N: Name>(space: &Space<N>, seat: &mut LockSeat<N>, meta: u64) -> Option<Offer>
    requires place { IsMetaPlace meta N.facts.start.pages }
    requires live { HasGroup seat.old meta }
    requires bare { Among meta seat.old.desk.zero_avail }
    requires inside { AreInSpace N.facts.start.pages seat.old.desk.groups }
    ensures notes { Notes seat.old seat.new }
    ensures freed { IfSome result (λ offer. IsChoice seat.new offer.choice) }
    ensures meta { IfSome result (λ offer. offer.choice.meta ≡ meta) }
    ensures none { IfNone result (FindsBare seat.old meta seat.new) }
{
    let freed = freed_mask(space, seat, meta);
    let lowest = lowest_bit(freed)?;
    let group = group_of(space, seat, meta);
    let active = active_index(space, seat, group.base);
    Some(Offer {
        rank: rank_of(freed, group.last, lowest, active),
        choice: Choice { meta, lowest },
    })
}

// The freed mask of a live group, read after its avail mask, which is noted as 0.
fn freed_mask<N: Name>(space: &Space<N>, seat: &mut LockSeat<N>, meta: u64) -> u32
    requires place { IsMetaPlace meta N.facts.start.pages }
    requires live { HasGroup seat.old meta }
    requires bare { Among meta seat.old.desk.zero_avail }
    ensures { ReadsMasks seat.old meta result seat.new }
{
    space.load_seat(seat, meta + AVAIL);
    space.load_seat(seat, meta + FREED) as u32
}

// How well a group serves with such a freed mask, whose lowest bit is `lowest`.
fn rank_of(freed: u32, last: u32, lowest: u32, active: u32) -> Rank
    requires { last < 32 }
{
    if lowest > active {
        Rank::Unused
    } else if freed == all_bits(last) {
        Rank::Wholly
    } else {
        Rank::Partly
    }
}
