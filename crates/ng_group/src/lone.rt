// Groups that are one block by themselves.
ghost use Rattle.std.specs.Prelude.{◌≡◌, ◌<◌, ◌≤◌, [], IfErr, IfOk, OnErr, OnOk, max};
ghost use Rattle.ng_policy.specs.Bounce.{stepped};
ghost use Rattle.ng_ledger.specs.Standing.{KeepsHand};
ghost use Rattle.ng_group.specs.Serving.{HasServed};
ghost use Rattle.ng_group.specs.States.{Working, ledger_of};
ghost use Rattle.ng_group.specs.Steps.{GoesOn, HandsOver, IsCalm, IsRefused};
ghost use Rattle.ng_group.specs.Asking.{LeavesHeap};
ghost use Rattle.ng_group.specs.Building.{HasInHand, LeavesAll};
ghost use Rattle.ng_group.specs.Lone.{BuildsAlone, BuildsLone, IsLoneRefused};
ghost use Rattle.ng_terms.specs.Accounts.{pages_for};

use crate::words::count_run;
use crate::works::Works;
use ng_build::{Draft, publish_run};
use ng_class::{IB, LONE, UNIT};
use ng_mapper::Mapper;
use ng_meta::PAGE_BYTES;
use ng_policy::Rules;
use ng_space::{Name, Space};
use ng_supply::{find_meta, map_run};

impl<N: Name, M: Mapper, P: Rules> Works<N, M, P> {
    /// Builds a group that is one block of so many bytes, and gets its slot into the seat, by its meta. The number of a
    /// refused map call comes instead, with its excuse in the seat.
    pub(crate) fn seat_lone(&mut self, space: &Space<N>, bytes: u64) -> Result<u64, u64>
        requires large { 131052 ≤ bytes }
        requires bytes { bytes < 9223372036854771711 }
        requires working { Working N.facts.start M.span M.runs M.refused self.old }
        requires idle { self.old.seat.held ≡ [] }
        ensures working { Working N.facts.start M.span M.runs M.refused self.new }
        ensures on { GoesOn self.old.seat self.new.seat }
        ensures hand { KeepsHand (ledger_of self.old) (ledger_of self.new) }
        ensures served { IfOk result (λ meta. HasServed 63 bytes self.new.seat meta 0) }
        ensures calm { OnOk result (IsCalm self.old.seat self.new.seat (M.refused self.old.mapper) (M.refused self.new.mapper)) }
        ensures stores { OnOk result (self.new.seat.stores ≡ self.old.seat.stores) }
        ensures refused { IfErr result (λ number. IsRefused number self.old.seat self.new.seat (M.refused self.old.mapper) (M.refused self.new.mapper)) }
        ensures idle { OnErr result (self.new.seat.held ≡ []) }
        ensures builds { IfOk result (λ meta. BuildsLone meta self.old self.new bytes) }
        ensures cause { OnErr result (IsLoneRefused self.old self.new bytes (M.refused self.new.mapper).last) }
        ensures leaves { OnErr result (LeavesHeap self.old self.new) }
        ensures most { OnErr result ((M.refused self.new.mapper).most ≤ max (M.refused self.old.mapper).most (pages_for bytes)) }
        ensures rules { self.new.rules ≡ self.old.rules }
    {
        let meta = find_meta(space, &mut self.seat, &mut self.mapper, &mut self.stock)?;
        match self.build_lone(space, meta, bytes) {
            Ok(()) => Ok(meta),
            Err(number) => {
                self.stock.put(meta);
                Err(number)
            }
        }
    }

    // Builds it with its meta in hand. No ring has it.
    fn build_lone(&mut self, space: &Space<N>, meta: u64, bytes: u64) -> Result<(), u64>
        requires large { 131052 ≤ bytes }
        requires bytes { bytes < 9223372036854771711 }
        requires working { Working N.facts.start M.span M.runs M.refused self.old }
        requires meta { HasInHand N.facts.start (ledger_of self.old) meta }
        requires idle { self.old.seat.held ≡ [] }
        ensures working { Working N.facts.start M.span M.runs M.refused self.new }
        ensures on { GoesOn self.old.seat self.new.seat }
        ensures hand { OnOk result (HandsOver meta (ledger_of self.old) (ledger_of self.new)) }
        ensures kept { OnErr result (KeepsHand (ledger_of self.old) (ledger_of self.new)) }
        ensures served { OnOk result (HasServed 63 bytes self.new.seat meta 0) }
        ensures stock { self.new.stock ≡ self.old.stock }
        ensures calm { OnOk result (IsCalm self.old.seat self.new.seat (M.refused self.old.mapper) (M.refused self.new.mapper)) }
        ensures stores { OnOk result (self.new.seat.stores ≡ self.old.seat.stores) }
        ensures refused { IfErr result (λ number. IsRefused number self.old.seat self.new.seat (M.refused self.old.mapper) (M.refused self.new.mapper)) }
        ensures idle { OnErr result (self.new.seat.held ≡ []) }
        ensures built { OnOk result (BuildsAlone meta (pages_for bytes) self.old self.new) }
        ensures asked { OnErr result ((M.refused self.new.mapper).last ≡ pages_for bytes) }
        ensures most { OnErr result ((M.refused self.new.mapper).most ≡ max (M.refused self.old.mapper).most (pages_for bytes)) }
        ensures left { OnErr result (LeavesAll self.old self.new) }
        ensures bounces { self.new.bounces ≡ stepped self.old.bounces }
        ensures rules { self.new.rules ≡ self.old.rules }
    {
        self.bounce.step();
        let pages = (bytes + UNIT + IB).div_ceil(PAGE_BYTES);
        let base = map_run(space, &mut self.seat, &mut self.mapper, pages)?;
        count_run(space, &mut self.seat, &mut self.counter);
        let draft = Draft {
            meta,
            base,
            class: LONE,
            last: 0,
            maplen: pages,
            active: 0,
        };
        publish_run(space, &mut self.seat, &draft);
        space.note_ring(&mut self.seat, meta, false);
        Ok(())
    }
}
