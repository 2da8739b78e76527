// New groups, on runs of their own and in slots of others.
ghost use Rattle.std.specs.Prelude.{◌≡◌, ℕ, ◌+◌, ◌*◌, ◌%◌, ◌<◌, ◌≤◌, ◌^◌, ◌∷◌, [], IfErr, OnErr, OnOk, max, slice_index};
ghost use Rattle.ng_class.specs.Class.{IsLeastClass, units_of};
ghost use Rattle.ng_meta.specs.Place.{IsMetaPlace};
ghost use Rattle.ng_policy.specs.Ask.{AskInRange, IsCount};
ghost use Rattle.ng_policy.specs.Bounce.{accounted, stepped};
ghost use Rattle.ng_ledger.specs.Rings.{IsBare, entered_first};
ghost use Rattle.ng_ledger.specs.Standing.{KeepsHand};
ghost use Rattle.ng_lists.specs.Rings.{IsListed};
ghost use Rattle.ng_view.specs.Conditions.{IsUnborn};
ghost use Rattle.ng_view.specs.LockSteps.{active_set};
ghost use Rattle.ng_view.specs.Notes.{plain_run};
ghost use Rattle.ng_view.specs.declared.view.View.{View};
ghost use Rattle.ng_shelf.specs.Shape.{IsNestedSize, shape_of};
ghost use Rattle.ng_group.specs.Building.{HasBuilt, HasInHand, IsCarriedBy, LeavesAll, with_used};
ghost use Rattle.ng_group.specs.Serving.{HasServed};
ghost use Rattle.ng_group.specs.States.{Working, ledger_of};
ghost use Rattle.ng_group.specs.Untouched.{IsUntouched};
ghost use Rattle.ng_group.specs.Steps.{GoesOn, HandsOver, IsCalm, IsRefused, LeavesBelow};

use crate::words::count_run;
use crate::works::Works;
use ng_build::{Carrier, Draft, publish_run, publish_slot};
use ng_class::{slot_start, stride};
use ng_mapper::Mapper;
use ng_meta::GROUP_HEAD;
use ng_policy::{Ask, Rules};
use ng_serve::group_of;
use ng_shelf::{first_active, run_shape};
use ng_space::{Name, Space};
use ng_supply::map_run;

impl<N: Name, M: Mapper, P: Rules> Works<N, M, P> {
    /// Builds a group on a run of its own, with its meta in hand, for a block of so many bytes, where the rules want
    /// `count` slots. The number of a refused map call comes instead, with its excuse in the seat.
    pub(crate) fn build_mapped(
        &mut self,
        space: &Space<N>,
        meta: u64,
        ask: &Ask,
        bytes: u64,
        count: u32,
    ) -> Result<(), u64>
        requires class { AskInRange ask.now }
        requires bytes { bytes + 4 ≤ 16 * units_of ask.now.class }
        requires count { IsCount ask.now.class count }
        requires large { ¬ IsNestedSize ask.now.class count }
        requires working { Working N.facts.start M.span M.runs M.refused self.old }
        requires meta { HasInHand N.facts.start (ledger_of self.old) meta }
        requires bare { IsBare self.old.seat.desk.zero_avail self.old.rings ask.now.class }
        requires idle { self.old.seat.held ≡ [] }
        ensures working { Working N.facts.start M.span M.runs M.refused self.new }
        ensures on { GoesOn self.old.seat self.new.seat }
        ensures below { LeavesBelow ask.now.class (ledger_of self.old) (ledger_of self.new) }
        ensures hand { OnOk result (HandsOver meta (ledger_of self.old) (ledger_of self.new)) }
        ensures built { OnOk result (HasBuilt meta ask.now.class (shape_of ask.now bytes count).count self.old self.new) }
        ensures served { OnOk result (HasServed ask.now.class bytes self.new.seat meta 0) }
        ensures calm { OnOk result (IsCalm self.old.seat self.new.seat (M.refused self.old.mapper) (M.refused self.new.mapper)) }
        ensures stores { OnOk result (self.new.seat.stores ≡ self.old.seat.stores) }
        ensures kept { OnErr result (KeepsHand (ledger_of self.old) (ledger_of self.new)) }
        ensures refused { IfErr result (λ number. IsRefused number self.old.seat self.new.seat (M.refused self.old.mapper) (M.refused self.new.mapper)) }
        ensures idle { OnErr result (self.new.seat.held ≡ []) }
        ensures run { OnOk result ((base : ℕ) × (self.new.seat.desk.layout.runs
            ≡ plain_run base (shape_of ask.now bytes count).pages ∷ self.old.seat.desk.layout.runs)) }
        ensures asked { OnErr result ((M.refused self.new.mapper).last ≡ (shape_of ask.now bytes count).pages) }
        ensures most { OnErr result ((M.refused self.new.mapper).most ≡ max (M.refused self.old.mapper).most (shape_of ask.now bytes count).pages) }
        ensures left { OnErr result (LeavesAll self.old self.new) }
        ensures stock { self.new.stock ≡ self.old.stock }
        ensures rules { self.new.rules ≡ self.old.rules }
        ensures counted { OnOk result (self.new.counter ≡ (self.old.counter + 1) % 2 ^ 64) }
        ensures bounces { self.new.bounces ≡ stepped (accounted self.old.bounces ask.now.class) }
    {
        self.rings.stand_once();
        let class = ask.class;
        self.bounce.account(class);
        self.bounce.step();
        let shape = run_shape(ask, bytes, count);
        let base = map_run(space, &mut self.seat, &mut self.mapper, shape.pages)?;
        count_run(space, &mut self.seat, &mut self.counter);
        let draft = Draft {
            meta,
            base,
            class,
            last: shape.count - 1,
            maplen: shape.pages,
            active: first_active(class, shape.count),
        };
        publish_run(space, &mut self.seat, &draft);
        self.enter_first(space, class, meta, shape.count);
        Ok(())
    }

    /// Builds a group in the slot in the seat, with its meta in hand. The slot is given by its meta and index.
    pub(crate) fn build_nested(
        &mut self,
        space: &Space<N>,
        meta: u64,
        class: u32,
        count: u32,
        slot: (u64, u32),
    )
        requires class { class < 48 }
        requires count { IsCount class count }
        requires small { IsNestedSize class count }
        requires working { Working N.facts.start M.span M.runs M.refused self.old }
        requires meta { HasInHand N.facts.start (ledger_of self.old) meta }
        requires bare { IsBare self.old.seat.desk.zero_avail self.old.rings class }
        requires slot { (carrying : ℕ) × IsLeastClass (16 * units_of class * count + 12) carrying × (class < carrying)
            × HasServed carrying (16 * units_of class * count + 12) self.old.seat slot.0 slot.1 }
        ensures working { Working N.facts.start M.span M.runs M.refused self.new }
        ensures on { GoesOn self.old.seat self.new.seat }
        ensures below { LeavesBelow class (ledger_of self.old) (ledger_of self.new) }
        ensures hand { HandsOver meta (ledger_of self.old) (ledger_of self.new) }
        ensures built { HasBuilt meta class count self.old self.new }
        ensures served { (bytes : ℕ) → bytes + 4 ≤ 16 * units_of class → HasServed class bytes self.new.seat meta 0 }
        ensures carried { IsCarriedBy meta slot.0 slot.1 self.old self.new }
        ensures untouched { (before : View) → IsUnborn before meta → IsUntouched slot.0 slot.1 before self.old.seat
            → IsUntouched meta 0 before self.new.seat }
        ensures excuses { self.new.seat.excuses ≡ self.old.seat.excuses }
        ensures runs { self.new.seat.desk.layout.runs ≡ self.old.seat.desk.layout.runs }
        ensures mapper { self.new.mapper ≡ self.old.mapper }
        ensures stock { self.new.stock ≡ self.old.stock }
        ensures rules { self.new.rules ≡ self.old.rules }
        ensures counter { self.new.counter ≡ self.old.counter }
        ensures bounces { self.new.bounces ≡ self.old.bounces }
    {
        self.rings.stand_once();
        let (parent, index) = slot;
        let group = group_of(space, &mut self.seat, parent);
        let carrier = Carrier {
            meta: parent,
            index,
            storage: group.base + GROUP_HEAD,
            stride: stride(group.class, group.last, group.maplen),
        };
        let draft = Draft {
            meta,
            base: slot_start(carrier.storage, carrier.stride, index),
            class,
            last: count - 1,
            maplen: 0,
            active: count - 1,
        };
        publish_slot(space, &mut self.seat, &draft, &carrier);
        self.parents.set(meta, parent, index);
        self.enter_first(space, class, meta, count);
    }

    // The meta of a new group comes into the ring of its class, as the first, and into the active word; and the group's
    // slots are counted.
    fn enter_first(&mut self, space: &Space<N>, class: u32, meta: u64, slots: u32)
        requires class { class < 48 }
        requires place { IsMetaPlace meta N.facts.start.pages }
        requires pages { self.old.rings.pages ≡ N.facts.start.pages }
        requires absent { ¬ IsListed self.old.rings meta }
        requires few { slice_index self.old.usage class + slots < 2 ^ 64 }
        ensures { self.new ≡ record self.old {
          seat = active_set self.old.seat class meta;
          rings = entered_first self.old.rings class meta;
          usage = with_used self.old.usage class slots;
        } }
    {
        self.rings.stand_once();
        let usage = &mut self.usage;
        usage[class as usize] += u64::from(slots);
        self.rings.enqueue(class, meta);
        self.rings.rotate(class, meta);
        space.set_active(&mut self.seat, class, meta);
    }
}
