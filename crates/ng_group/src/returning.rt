// Slots returned under the lock.
ghost use Rattle.std.specs.Prelude.{◌≡◌, ◌+◌, ◌<◌, ◌≤◌, ◌↔◌, ◌⊎◌, [], IsTrue, true, false};
ghost use Rattle.ng_class.specs.Mask.{FillsGroup};
ghost use Rattle.ng_meta.specs.Place.{IsMetaPlace};
ghost use Rattle.ng_policy.specs.Ask.{SpareInRange};
ghost use Rattle.ng_view.specs.Fetches.{HasGroup};
ghost use Rattle.ng_mask.specs.Fetches.{OfGroup};
ghost use Rattle.ng_view.specs.Lists.{Among};
ghost use Rattle.ng_view.specs.Slots.{IsPlain};
ghost use Rattle.ng_serve.specs.Groups.{Describes};
ghost use Rattle.ng_lists.specs.Rings.{IsListed};
ghost use Rattle.ng_ledger.specs.Groups.{IsOfClass};
ghost use Rattle.ng_ledger.specs.Standing.{KeepsHand};
ghost use Rattle.ng_serve.specs.Takes.{IsServed};
ghost use Rattle.ng_group.specs.Filling.{AreSlots, LooksAt, Searches};
ghost use Rattle.ng_group.specs.Returning.{CapturesAll, Enlists, GoesBack, HasReturned, HasWhole, IsKept, IsSpare, MayGo, Returns, TakesWhole};
ghost use Rattle.ng_group.specs.Serving.{OnlyRing};
ghost use Rattle.ng_group.specs.States.{Working, ledger_of};
ghost use Rattle.ng_group.specs.Steps.{GoesOn, IsCalm};

use crate::words::{first_word, follow};
use crate::works::Works;
use ng_class::{LONE, UNIT, all_bits, stride, units};
use ng_mapper::Mapper;
use ng_mask::capture;
use ng_meta::{AVAIL, FREED, mask_of};
use ng_policy::{Rules, Spare};
use ng_serve::{LiveGroup, group_of, put_captured, put_slot};
use ng_space::{LockSeat, Name, Space};

impl<N: Name, M: Mapper, P: Rules> Works<N, M, P> {
    /// Returns the slot in the seat to its group, whose numbers are given. The group is torn down where all of its slots
    /// are back then and it may go, and so may be the one around it.
    pub(crate) fn seat_return(&mut self, space: &Space<N>, meta: u64, index: u32, group: &LiveGroup)
        requires working { Working N.facts.start M.span M.runs M.refused self.old }
        requires slot { HasReturned self.old.seat meta index }
        requires group { OfGroup self.old.seat meta (Describes group.now) }
        ensures working { Working N.facts.start M.span M.runs M.refused self.new }
        ensures on { GoesOn self.old.seat self.new.seat }
        ensures hand { KeepsHand (ledger_of self.old) (ledger_of self.new) }
        ensures calm { IsCalm self.old.seat self.new.seat (M.refused self.old.mapper) (M.refused self.new.mapper) }
        ensures idle { self.new.seat.held ≡ [] }
        ensures returns { Returns (P.keep_gives self.old.rules) M.runs self.old meta index group.now self.new }
        ensures rules { self.new.rules ≡ self.old.rules }
    {
        if !self.take_whole(space, meta, index, group) {
            return;
        }
        let Some((parent, place)) = self.end_group(space, meta, group) else {
            self.stock.put(meta);
            return;
        };
        let carrying = group_of(space, &mut self.seat, parent);
        self.seat_return(space, parent, place, &carrying);
        self.stock.put(meta);
    }

    // Puts the slot in the seat back into its group; or, where the group has all of its slots then and may go, takes
    // them all into the seat, and answers so.
    fn take_whole(&mut self, space: &Space<N>, meta: u64, index: u32, group: &LiveGroup) -> bool
        requires working { Working N.facts.start M.span M.runs M.refused self.old }
        requires slot { HasReturned self.old.seat meta index }
        requires group { OfGroup self.old.seat meta (Describes group.now) }
        ensures working { Working N.facts.start M.span M.runs M.refused self.new }
        ensures only { OnlyRing group.now.class self.old self.new }
        ensures whole { IsTrue result → HasWhole self.new.seat meta }
        ensures idle { result ≡ false → self.new.seat.held ≡ [] }
        ensures takes { TakesWhole (P.keep_gives self.old.rules) self.old meta index group.now result self.new }
    {
        let masks = read_masks(space, &mut self.seat, meta);
        if !self.may_end(meta, index, group, masks) {
            self.put_back(space, meta, index, group.class);
            return false;
        }
        capture_all(space, &mut self.seat, meta, index, group.last)
    }

    // Whether a slot and those of its group's masks are all of the group's slots, and it may go.
    fn may_end(&self, meta: u64, index: u32, group: &LiveGroup, masks: (u32, u32)) -> bool
        requires few { N.facts.start.pages ≤ 16384 }
        requires working { Working N.facts.start M.span M.runs M.refused self.now }
        requires live { HasGroup self.now.seat meta }
        requires group { OfGroup self.now.seat meta (Describes group.now) }
        requires index { index ≤ group.now.last }
        requires avail { AreSlots masks.0 group.now.last }
        requires freed { AreSlots masks.1 group.now.last }
        ensures fills { result ≡ true → FillsGroup masks.0 masks.1 index group.now.last }
        ensures goes { result ≡ true → MayGo (P.keep_gives self.now.rules) self.now meta group.now }
        ensures stays { result ≡ false → (¬ FillsGroup masks.0 masks.1 index group.now.last)
            ⊎ IsKept (P.keep_gives self.now.rules) self.now meta group.now }
    {
        fills(masks, index, group.last) && self.may_go(meta, group)
    }

    // Whether a group may be torn down once all of its slots are back: it is one block, or has one slot of less than its
    // class, or is nested, or the rules don't keep it.
    fn may_go(&self, meta: u64, group: &LiveGroup) -> bool
        requires few { N.facts.start.pages ≤ 16384 }
        requires working { Working N.facts.start M.span M.runs M.refused self.now }
        requires live { HasGroup self.now.seat meta }
        requires group { OfGroup self.now.seat meta (Describes group.now) }
        ensures goes { result ≡ true → MayGo (P.keep_gives self.now.rules) self.now meta group.now }
        ensures stays { result ≡ false → IsKept (P.keep_gives self.now.rules) self.now meta group.now }
    {
        group.class == LONE
            || stride(group.class, group.last, group.maplen) < UNIT * units(group.class)
            || group.maplen == 0
            || !self.rules.keep(self.spare(meta, group))
    }

    // What the rules are asked of a group whose slots are all free.
    fn spare(&self, meta: u64, group: &LiveGroup) -> Spare
        requires few { N.facts.start.pages ≤ 16384 }
        requires working { Working N.facts.start M.span M.runs M.refused self.now }
        requires live { HasGroup self.now.seat meta }
        requires group { OfGroup self.now.seat meta (Describes group.now) }
        requires class { group.now.class < 48 }
        ensures range { SpareInRange result }
        ensures spare { IsSpare self.now meta group.now result }
    {
        let usage = &self.usage;
        Spare {
            class: group.class,
            slots: group.last + 1,
            usage: usage[group.class as usize],
            alone: self.rings.has(meta) && self.rings.alone(meta),
            bouncing: self.bounce.bouncing(group.class),
        }
    }

    // Sets the slot's bit in the freed mask of its group, which comes into its ring where it isn't there.
    fn put_back(&mut self, space: &Space<N>, meta: u64, index: u32, class: u32)
        requires working { Working N.facts.start M.span M.runs M.refused self.old }
        requires slot { HasReturned self.old.seat meta index }
        requires class { OfGroup self.old.seat meta (λ g. g.tag ≡ class + 1) }
        requires plain { OfGroup self.old.seat meta IsPlain }
        requires bare { ¬ IsListed self.old.rings meta → Among meta self.old.seat.desk.zero_avail }
        ensures working { Working N.facts.start M.span M.runs M.refused self.new }
        ensures only { OnlyRing class self.old self.new }
        ensures idle { self.new.seat.held ≡ [] }
        ensures back { GoesBack class meta index self.old self.new }
    {
        self.enlist(space, meta, class);
        put_slot(space, &mut self.seat, meta, index);
    }

    // Lets a group, whose avail mask is 0, come into the ring of its class. Nothing is done where it is there.
    fn enlist(&mut self, space: &Space<N>, meta: u64, class: u32)
        requires class { class < 48 }
        requires working { Working N.facts.start M.span M.runs M.refused self.old }
        requires group { IsOfClass self.old.seat.desk.groups meta class }
        requires bare { ¬ IsListed self.old.rings meta → Among meta self.old.seat.desk.zero_avail }
        ensures working { Working N.facts.start M.span M.runs M.refused self.new }
        ensures only { OnlyRing class self.old self.new }
        ensures listed { Among meta self.new.seat.desk.listed }
        ensures held { self.new.seat.held ≡ self.old.seat.held }
        ensures enlists { Enlists class meta self.old self.new }
    {
        self.rings.stand_once();
        if self.rings.has(meta) {
            return;
        }
        space.note_ring(&mut self.seat, meta, true);
        let was = first_word(&self.rings, class);
        self.rings.enqueue(class, meta);
        follow(space, &mut self.seat, &self.rings, class, was);
    }
}

// Reads the masks of a live group, freed before avail. The answer is avail and freed.
fn read_masks<N: Name>(space: &Space<N>, seat: &mut LockSeat<N>, meta: u64) -> (u32, u32)
    requires place { IsMetaPlace meta N.facts.start.pages }
    requires live { HasGroup seat.old meta }
    ensures { LooksAt seat.old meta result.0 result.1 seat.new }
{
    let freed = mask_of(space.load_seat(seat, meta + FREED));
    let avail = mask_of(space.load_seat(seat, meta + AVAIL));
    (avail, freed)
}

// Whether a slot and those of two masks are all slots of a group.
fn fills(masks: (u32, u32), index: u32, last: u32) -> bool
    requires index { index ≤ last }
    requires last { last < 32 }
    requires avail { AreSlots masks.0 last }
    requires freed { AreSlots masks.1 last }
    ensures { IsTrue result ↔ FillsGroup masks.0 masks.1 index last }
{
    masks.0 | masks.1 | 1 << index == all_bits(last)
}

// Takes the slots of a group's masks into the seat, where one slot is. All are put back where they are not all slots
// of the group.
fn capture_all<N: Name>(
    space: &Space<N>,
    seat: &mut LockSeat<N>,
    meta: u64,
    index: u32,
    last: u32,
) -> bool
    requires place { IsMetaPlace meta N.facts.start.pages }
    requires slot { HasReturned seat.old meta index }
    requires few { last < 32 }
    requires last { OfGroup seat.old meta (λ g. g.last ≡ last) }
    requires served { (last ≡ 0) ⊎ IsServed seat.old meta }
    ensures searches { Searches seat.old seat.new }
    ensures whole { IsTrue result → HasWhole seat.new meta }
    ensures idle { result ≡ false → seat.new.held ≡ [] }
    ensures captured { CapturesAll seat.old meta index last result seat.new }
{
    let masks = capture(space, seat, meta);
    if fills(masks, index, last) {
        return true;
    }
    put_captured(space, seat, meta, masks, index);
    false
}
