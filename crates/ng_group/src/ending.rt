// Groups that end.
ghost use Rattle.std.specs.Prelude.{◌≡◌, ◌+◌, ◌<◌, [], Contains, IfNone, IfSome};
ghost use Rattle.ng_lists.specs.Rings.{IsListed, ring_of};
ghost use Rattle.ng_mask.specs.Fetches.{OfGroup};
ghost use Rattle.ng_serve.specs.Groups.{Describes};
ghost use Rattle.ng_ledger.specs.Rings.{left};
ghost use Rattle.ng_ledger.specs.Usage.{AreUsed};
ghost use Rattle.ng_view.specs.LockSteps.{groups_but};
ghost use Rattle.ng_group.specs.Ending.{Ends, EndsGroup, LeavesAnyRing, LeavesRing, Unlists};
ghost use Rattle.ng_group.specs.Returning.{ComesInHand, HasReturned, HasWhole, IsAbove};
ghost use Rattle.ng_group.specs.Serving.{OnlyRing};
ghost use Rattle.ng_group.specs.States.{Working, ledger_of};
ghost use Rattle.ng_group.specs.Steps.{GoesOn, IsCalm};

use crate::words::{first_word, follow};
use crate::works::Works;
use ng_build::{clear_head, clear_meta, drop_run};
use ng_class::LONE;
use ng_mapper::Mapper;
use ng_policy::Rules;
use ng_serve::{LiveGroup, stock_freed};
use ng_space::{Name, Space};

impl<N: Name, M: Mapper, P: Rules> Works<N, M, P> {
    /// Ends a group of which every slot is in the seat: it leaves its ring, its cells are cleared, and its run goes. The
    /// answer is the slot that carried it, if it was nested, which is in the seat then. The meta is in hand.
    pub(crate) fn end_group(
        &mut self,
        space: &Space<N>,
        meta: u64,
        group: &LiveGroup,
    ) -> Option<(u64, u32)>
        requires working { Working N.facts.start M.span M.runs M.refused self.old }
        requires whole { HasWhole self.old.seat meta }
        requires group { OfGroup self.old.seat meta (Describes group.now) }
        ensures working { Working N.facts.start M.span M.runs M.refused self.new }
        ensures on { GoesOn self.old.seat self.new.seat }
        ensures hand { ComesInHand meta (ledger_of self.old) (ledger_of self.new) }
        ensures calm { IsCalm self.old.seat self.new.seat (M.refused self.old.mapper) (M.refused self.new.mapper) }
        ensures rules { self.new.rules ≡ self.old.rules }
        ensures ends { Ends M.runs meta group.now result self.old self.new }
        ensures slot { IfSome result (λ slot. HasReturned self.new.seat slot.0 slot.1) }
        ensures above { IfSome result (λ slot. IsAbove group.now.class self.new.seat slot.0) }
        ensures idle { IfNone result (self.new.seat.held ≡ []) }
    {
        self.leave_any_ring(space, meta, group.class);
        self.retire_group(space, meta, group);
        if group.maplen > 0 {
            self.bounce.step();
            self.bounce.stamp(group.class);
            drop_run(space, &mut self.seat, group.base, group.maplen);
            self.mapper.unmap(group.base, group.maplen);
            return None;
        }
        let (parent, index) = self.parents.of(meta);
        clear_head(space, &mut self.seat, parent, index, group.base);
        Some((parent, index))
    }

    // Ends a group of which every slot is in the seat, and makes the cells of its meta 0.
    fn retire_group(&mut self, space: &Space<N>, meta: u64, group: &LiveGroup)
        requires working { Working N.facts.start M.span M.runs M.refused self.old }
        requires whole { HasWhole self.old.seat meta }
        requires group { OfGroup self.old.seat meta (Describes group.now) }
        ensures ends { EndsGroup meta self.old self.new }
    {
        self.uncount(meta, group);
        space.retire(&mut self.seat, meta);
        clear_meta(space, &mut self.seat, meta);
    }

    // Takes the slots of a group off those in use of its class.
    fn uncount(&mut self, meta: u64, group: &LiveGroup)
        requires working { Working N.facts.start M.span M.runs M.refused self.old }
        requires whole { HasWhole self.old.seat meta }
        requires group { OfGroup self.old.seat meta (Describes group.now) }
        ensures only { self.new ≡ record self.old { usage = self.new.usage } }
        ensures used { AreUsed (groups_but meta self.old.seat.desk.groups) self.new.usage }
    {
        if group.class == LONE {
            return;
        }
        let usage = &mut self.usage;
        usage[group.class as usize] -= u64::from(group.last) + 1;
    }

    // Takes a group out of its ring, where it is in one, whose slots are all in the seat.
    fn leave_any_ring(&mut self, space: &Space<N>, meta: u64, class: u32)
        requires working { Working N.facts.start M.span M.runs M.refused self.old }
        requires whole { HasWhole self.old.seat meta }
        requires class { OfGroup self.old.seat meta (λ g. g.tag ≡ class + 1) }
        ensures working { Working N.facts.start M.span M.runs M.refused self.new }
        ensures only { OnlyRing class self.old self.new }
        ensures leaves { LeavesAnyRing class meta self.old self.new }
        ensures whole { HasWhole self.new.seat meta }
        ensures left { ¬ IsListed self.new.rings meta }
    {
        self.rings.stand_once();
        if self.rings.has(meta) {
            self.leave_ring(space, meta, class);
        }
    }

    // Takes a group out of its ring whose slots are all in the seat. Where it was the first, the slots in use of the
    // next that are freed become available.
    fn leave_ring(&mut self, space: &Space<N>, meta: u64, class: u32)
        requires working { Working N.facts.start M.span M.runs M.refused self.old }
        requires whole { HasWhole self.old.seat meta }
        requires class { class < 48 }
        requires member { Contains (ring_of self.old.rings class) meta }
        ensures working { Working N.facts.start M.span M.runs M.refused self.new }
        ensures only { OnlyRing class self.old self.new }
        ensures leaves { LeavesRing class meta self.old self.new }
        ensures whole { HasWhole self.new.seat meta }
        ensures left { ¬ IsListed self.new.rings meta }
    {
        let was_first = self.rings.first(class) == Some(meta);
        self.unlist(space, meta, class);
        if was_first {
            if let Some(next) = self.rings.first(class) {
                self.rings.stand_once();
                stock_freed(space, &mut self.seat, next);
            }
        }
    }

    // Takes a group out of its ring, and notes so; the active word follows. Its slots are all in the seat.
    fn unlist(&mut self, space: &Space<N>, meta: u64, class: u32)
        requires working { Working N.facts.start M.span M.runs M.refused self.old }
        requires whole { HasWhole self.old.seat meta }
        requires class { class < 48 }
        requires member { Contains (ring_of self.old.rings class) meta }
        ensures working { Working N.facts.start M.span M.runs M.refused self.new }
        ensures only { OnlyRing class self.old self.new }
        ensures unlists { Unlists class meta self.old self.new }
        ensures whole { HasWhole self.new.seat meta }
        ensures rings { self.new.rings ≡ left self.old.rings class meta }
        ensures avail { self.new.seat.desk.zero_avail ≡ self.old.seat.desk.zero_avail }
        ensures left { ¬ IsListed self.new.rings meta }
    {
        self.rings.stand_once();
        space.note_ring(&mut self.seat, meta, false);
        let was = first_word(&self.rings, class);
        self.rings.dequeue(class, meta);
        follow(space, &mut self.seat, &self.rings, class, was);
    }
}
