// Slots served out of rings, and where there are none, out of new groups.
ghost use Rattle.std.specs.Prelude.{◌≡◌, ◌+◌, ◌*◌, ◌<◌, ◌≤◌, ◌∷◌, [], Contains, IfErr, IfNone, IfOk, IfSome, OnErr, OnOk, Some, max, slice_get};
ghost use Rattle.ng_class.specs.Class.{IsLeastClass, units_of};
ghost use Rattle.ng_policy.specs.Ask.{IsCount};
ghost use Rattle.ng_policy.specs.Bounce.{decayed};
ghost use Rattle.ng_shelf.specs.Shape.{IsNestedSize};
ghost use Rattle.ng_ledger.specs.Rings.{IsBare};
ghost use Rattle.ng_ledger.specs.Standing.{KeepsHand};
ghost use Rattle.ng_lists.specs.Rings.{ring_of};
ghost use Rattle.ng_serve.specs.Choices.{IsChoice};
ghost use Rattle.ng_group.specs.Asking.{GetsSlot, LeavesHeap, RefusedWanted};
ghost use Rattle.ng_group.specs.Serving.{FindsNoFreed, FindsNoSlot, HasServed, IsServedBy, OnlyRing, StartsWalk};
ghost use Rattle.ng_group.specs.States.{Working, ledger_of};
ghost use Rattle.ng_group.specs.Untouched.{IsUntouched};
ghost use Rattle.ng_group.specs.Steps.{GoesOn, IsCalm, IsRefused, LeavesBelow};

use crate::words::{first_word, follow};
use crate::works::Works;
use ng_class::{UNIT, class_of, units};
use ng_mapper::Mapper;
use ng_mask::pop_core;
use ng_policy::Rules;
use ng_serve::{Choice, activate, choose, group_of, take_freed};
use ng_shelf::is_nested_size;
use ng_space::{Name, Space};
use ng_supply::find_meta;

/// The bytes that a slot serves for a group besides the group's slots: the 16 of the group's own, less the 4 that every
/// slot has behind its room.
const CARRIED: u64 = 12;

impl<N: Name, M: Mapper, P: Rules> Works<N, M, P> {
    /// Gets a slot of a class with room for `bytes` and 4 into the seat, by its meta and index: of a group in the ring of
    /// the class, or of a new one. The number of a refused map call comes instead, with its excuse in the seat.
    pub(crate) fn seat_slot(
        &mut self,
        space: &Space<N>,
        class: u32,
        bytes: u64,
    ) -> Result<(u64, u32), u64>
        requires class { class < 48 }
        requires bytes { bytes + 4 ≤ 16 * units_of class }
        requires working { Working N.facts.start M.span M.runs M.refused self.old }
        requires idle { self.old.seat.held ≡ [] }
        ensures working { Working N.facts.start M.span M.runs M.refused self.new }
        ensures on { GoesOn self.old.seat self.new.seat }
        ensures hand { KeepsHand (ledger_of self.old) (ledger_of self.new) }
        ensures below { LeavesBelow class (ledger_of self.old) (ledger_of self.new) }
        ensures served { IfOk result (λ slot. HasServed class bytes self.new.seat slot.0 slot.1) }
        ensures untouched { IfOk result (λ slot. IsUntouched slot.0 slot.1 self.old.seat self.new.seat) }
        ensures calm { OnOk result (IsCalm self.old.seat self.new.seat (M.refused self.old.mapper) (M.refused self.new.mapper)) }
        ensures refused { IfErr result (λ number. IsRefused number self.old.seat self.new.seat (M.refused self.old.mapper) (M.refused self.new.mapper)) }
        ensures idle { OnErr result (self.new.seat.held ≡ []) }
        ensures builds { OnOk result (GetsSlot (P.count_gives self.old.rules) self.old self.new class bytes) }
        ensures cause { OnErr result (RefusedWanted (P.count_gives self.old.rules) self.old self.new class bytes (M.refused self.new.mapper).last) }
        ensures leaves { OnErr result (LeavesHeap self.old self.new) }
        ensures most { OnErr result ((M.refused self.new.mapper).most ≤ max (M.refused self.old.mapper).most 512) }
        ensures rules { self.new.rules ≡ self.old.rules }
    {
        if let Some(slot) = self.serve_ring(space, class, bytes) {
            return Ok(slot);
        }
        let meta = find_meta(space, &mut self.seat, &mut self.mapper, &mut self.stock)?;
        let ask = self.ask(class);
        let count = self.rules.count(ask);
        if !is_nested_size(class, count) {
            return match self.build_mapped(space, meta, &ask, bytes, count) {
                Ok(()) => Ok((meta, 0)),
                Err(number) => {
                    self.stock.put(meta);
                    Err(number)
                }
            };
        }
        let carried = slot_for_group(class, count);
        match self.seat_slot(space, carried.class, carried.bytes) {
            Ok(slot) => {
                self.build_nested(space, meta, class, count, slot);
                Ok((meta, 0))
            }
            Err(number) => {
                self.stock.put(meta);
                Err(number)
            }
        }
    }

    // Takes a slot out of the ring of a class: one that is available in the first group, or a freed one of any. There is
    // none where all groups of the ring were read to be bare.
    fn serve_ring(&mut self, space: &Space<N>, class: u32, bytes: u64) -> Option<(u64, u32)>
        requires class { class < 48 }
        requires bytes { bytes + 4 ≤ 16 * units_of class }
        requires working { Working N.facts.start M.span M.runs M.refused self.old }
        requires idle { self.old.seat.held ≡ [] }
        ensures working { Working N.facts.start M.span M.runs M.refused self.new }
        ensures only { OnlyRing class self.old self.new }
        ensures served { IfSome result (λ slot. HasServed class bytes self.new.seat slot.0 slot.1) }
        ensures source { IfSome result (λ slot. IsServedBy class self.old self.new) }
        ensures none { IfNone result (FindsNoSlot class self.old self.new) }
    {
        self.rings.stand_once();
        let first = self.rings.first(class)?;
        match pop_core(space, &mut self.seat, first) {
            Some(index) => Some((first, index)),
            None => self.refill(space, class, bytes, first),
        }
    }

    // Takes a freed slot out of a group of the ring, whose first group has no slot available.
    fn refill(&mut self, space: &Space<N>, class: u32, bytes: u64, first: u64) -> Option<(u64, u32)>
        requires class { class < 48 }
        requires bytes { bytes + 4 ≤ 16 * units_of class }
        requires first { slice_get (ring_of self.old.rings class) 0 ≡ Some first }
        requires working { Working N.facts.start M.span M.runs M.refused self.old }
        requires bare { IsBare self.old.seat.desk.zero_avail self.old.rings class }
        requires idle { self.old.seat.held ≡ [] }
        ensures working { Working N.facts.start M.span M.runs M.refused self.new }
        ensures only { OnlyRing class self.old self.new }
        ensures served { IfSome result (λ slot. HasServed class bytes self.new.seat slot.0 slot.1) }
        ensures decays { IfSome result (λ slot. self.new.bounces ≡ decayed self.old.bounces class) }
        ensures none { IfNone result (FindsNoFreed class first self.old self.new) }
    {
        let start = self.leave_if_bare(space, class, first)?;
        let choice = choose(space, &mut self.seat, &self.rings, class, start)?;
        Some(self.serve(space, class, bytes, choice))
    }

    // Lets the first group leave its ring where no slot of it is freed. The answer is the group from which on the ring
    // is searched, so that the first one comes last; there is none where the ring is empty then.
    fn leave_if_bare(&mut self, space: &Space<N>, class: u32, first: u64) -> Option<u64>
        requires class { class < 48 }
        requires first { slice_get (ring_of self.old.rings class) 0 ≡ Some first }
        requires working { Working N.facts.start M.span M.runs M.refused self.old }
        requires bare { IsBare self.old.seat.desk.zero_avail self.old.rings class }
        ensures working { Working N.facts.start M.span M.runs M.refused self.new }
        ensures only { OnlyRing class self.old self.new }
        ensures walk { StartsWalk class first self.old self.new }
        ensures start { IfSome result (Contains (ring_of self.new.rings class)) }
        ensures none { IfNone result (ring_of self.old.rings class ≡ first ∷ []) }
        ensures empty { IfNone result (ring_of self.new.rings class ≡ []) }
    {
        self.rings.stand_once();
        if space.note_ring(&mut self.seat, first, false) != 0 {
            return Some(self.rings.next(first));
        }
        self.rings.dequeue(class, first);
        follow(space, &mut self.seat, &self.rings, class, first);
        self.rings.first(class)
    }

    // Takes a freed slot out of the chosen group, which is then the first of its ring.
    fn serve(&mut self, space: &Space<N>, class: u32, bytes: u64, choice: Choice) -> (u64, u32)
        requires class { class < 48 }
        requires bytes { bytes + 4 ≤ 16 * units_of class }
        requires member { Contains (ring_of self.old.rings class) choice.meta }
        requires choice { IsChoice self.old.seat choice }
        requires working { Working N.facts.start M.span M.runs M.refused self.old }
        requires bare { IsBare self.old.seat.desk.zero_avail self.old.rings class }
        requires idle { self.old.seat.held ≡ [] }
        ensures working { Working N.facts.start M.span M.runs M.refused self.new }
        ensures only { OnlyRing class self.old self.new }
        ensures served { HasServed class bytes self.new.seat result.0 result.1 }
        ensures decays { self.new.bounces ≡ decayed self.old.bounces class }
    {
        let Choice { meta, lowest } = choice;
        let was = first_word(&self.rings, class);
        self.rings.rotate(class, meta);
        self.rings.stand_once();
        let group = group_of(space, &mut self.seat, meta);
        let active = activate(space, &mut self.seat, &group, lowest);
        let index = take_freed(space, &mut self.seat, meta, active);
        follow(space, &mut self.seat, &self.rings, class, was);
        self.bounce.decay(class);
        (meta, index)
    }
}

// What a slot must serve that is to carry a group.
#[derive(Clone, Copy, Debug, PartialEq, Eq)]
struct Carried {
    class: u32,
    bytes: u64,
}

// The least class of a slot for a group of so many slots, and the bytes asked of it.
fn slot_for_group(class: u32, count: u32) -> Carried
    requires class { class < 48 }
    requires count { IsCount class count }
    requires small { IsNestedSize class count }
    ensures bytes { result.bytes ≡ 16 * units_of class * count + 12 }
    ensures least { IsLeastClass result.bytes result.class }
    ensures above { class < result.class }
    ensures known { result.class < 48 }
    ensures fits { result.bytes + 4 ≤ 16 * units_of result.class }
{
    let bytes = UNIT * units(class) * u64::from(count) + CARRIED;
    Carried {
        class: class_of(bytes).unwrap(),
        bytes,
    }
}
