ghost use Rattle.std.specs.Prelude.{◌≡◌, ◌+◌, ◌*◌, ◌<◌, ◌≤◌, IfErr, IfOk, OnErr, OnOk, slice_get, sum_by};
ghost use Rattle.ng_mapper.specs.Mapping.{NotesNone};
ghost use Rattle.ng_class.specs.Class.{units_of};
ghost use Rattle.ng_lists.specs.Rings.{ring_of};
ghost use Rattle.ng_policy.specs.Bounce.{no_bounces};
ghost use Rattle.ng_space.specs.Blocks.{BlockToken, HasBlock};
ghost use Rattle.ng_space.specs.Leaving.{KeepsBook, KeepsSlots};
ghost use Rattle.ng_space.specs.Tokens.{HasSlot, Token};
ghost use Rattle.ng_view.specs.Conditions.{IsBlanked, IsSettled};
ghost use Rattle.ng_group.specs.Asking.{BuildsWanted, LeavesHeap, RefusedWanted};
ghost use Rattle.ng_group.specs.Hands.{GainsSlot, GetsExcuse, IsApart, IsSlotFor};
ghost use Rattle.ng_group.specs.Lone.{BuildsLone, IsLoneRefused};
ghost use Rattle.ng_group.specs.Opening.{AreEmpty, IsFreshMapper, IsFreshSeat, IsHandedBack};
ghost use Rattle.ng_group.specs.Returning.{ReturnsOfHand};
ghost use Rattle.ng_group.specs.Steps.{GoesOn};
ghost use Rattle.ng_group.specs.Untouched.{IsUntouched};
ghost use Rattle.ng_terms.specs.Accounts.{pages_for};
ghost use Rattle.ng_view.specs.Steps.{pushed};

use crate::tables::Tables;
use crate::works::Works;
use ng_mapper::Mapper;
use ng_mask::{Pop, pop};
use ng_policy::{Bounce, Kept, Rules};
use ng_serve::group_of_slot;
use ng_space::{Excuse, Hand, LockSeat, Name, Slot, Space};
use std::marker::Model;

/// The core of a heap, which the heap's lock owns: it builds groups of slots, serves slots to hands, takes them back and
/// tears groups down.
///
/// Between two calls no slot is in motion; the noted runs are the mapper's live ones, and each is an area or the run of a
/// live group; the metas of the rings are the listed ones, and those after a ring's first have avail noted as 0; and the
/// free metas are those of the areas without a live group, and known to be 0. The active word of each class, in page 0, is the
/// first meta of its ring, or 0 where the ring is empty, and the counter's word there has the low 32 bits of the counter. No
/// refused map call asked for more pages than one had before, than a group of slots has, or than the largest block that is
/// asked for needs.
#[derive(Drop)]
pub struct Core<N: Name, M: Mapper, P: Rules> {
    pub(crate) works: Works<N, M, P>,
}

impl<N: Name, M: Mapper, P: Rules> Model for Core<N, M, P> {
    ghost use Rattle.ng_group.specs.Opening.{IsMostBounded};
    ghost use Rattle.ng_group.specs.States.{Resting, State};

    ghost Value = { State M P };

    ghost view = { λ core. core.works };

    ghost invariant = { λ core. Resting N.facts.start M.span M.runs M.refused core.works
        × IsMostBounded N.facts (M.refused core.works.mapper) };
}

impl<N: Name, M: Mapper, P: Rules> Core<N, M, P> {
    /// A core without groups, over the seat that the space was opened with.
    pub fn open(
        _space: &Space<N>,
        seat: LockSeat<N>,
        tables: Tables,
        mapper: M,
        rules: Kept<P>,
    ) -> Core<N, M, P>
        requires seat { IsFreshSeat N.facts.start seat }
        requires tables { AreEmpty N.facts.start.pages tables }
        requires mapper { IsFreshMapper N.facts.start (M.span mapper) (M.runs mapper) (M.refused mapper) }
        requires most { (M.refused mapper).most ≡ N.facts.most }
        ensures seat { result.seat ≡ seat }
        ensures mapper { result.mapper ≡ mapper }
        ensures rules { result.rules ≡ rules }
        ensures bounces { result.bounces ≡ no_bounces }
        ensures counter { result.counter ≡ 0 }
    {
        let Tables {
            rings,
            stock,
            parents,
        } = tables;
        Core {
            works: Works {
                seat,
                rings,
                stock,
                parents,
                usage: [0; 48],
                bounce: Bounce::new(),
                counter: 0,
                mapper,
                rules,
            },
        }
    }

    /// The first group of the ring of a class, by its meta.
    pub fn active(&self, class: u32) -> Option<u64>
        requires class { class < 48 }
        ensures { result ≡ slice_get (ring_of self.now.rings class) 0 }
    {
        self.works.rings.first(class)
    }

    /// How many runs were mapped for groups. After 2^64 - 1 comes 0.
    pub fn counter(&self) -> u64
        ensures { result ≡ self.now.counter }
    {
        self.works.counter
    }

    /// The pages of the mapper's live runs.
    pub fn live_pages(&self) -> u64
        ensures { result ≡ sum_by (λ run. run.1) (M.runs self.now.mapper) }
    {
        self.works.mapper.live_pages()
    }

    /// Gets a slot of a class for a hand, with room for `bytes` and 4: of the first group in the ring of the class, or of
    /// another there, or of a new one. The excuse of a refused map call comes instead.
    pub fn alloc_slot(
        &mut self,
        space: &Space<N>,
        hand: &mut Hand<N>,
        class: u32,
        bytes: u64,
    ) -> Result<Slot<N>, Excuse<N>>
        requires class { class < 48 }
        requires bytes { bytes + 4 ≤ 16 * units_of class }
        ensures slot { IfOk result (IsSlotFor class bytes hand.new) }
        ensures gains { IfOk result (λ slot. GainsSlot slot.meta slot.index hand.old.view hand.new.view) }
        ensures apart { IfOk result (λ slot. (token : Token) → HasSlot hand.old token → IsApart token slot) }
        ensures calm { OnOk result
            (NotesNone (M.refused self.old.mapper) (M.refused self.new.mapper)) }
        ensures untouched { IfOk result (λ slot. IsUntouched slot.meta slot.index self.old.seat self.new.seat) }
        ensures builds { OnOk result (BuildsWanted (P.count_gives self.old.rules) self.old self.new class bytes) }
        ensures excuse { IfErr result
            (GetsExcuse 512 hand.old hand.new
            (M.refused self.old.mapper) (M.refused self.new.mapper)) }
        ensures cause { OnErr result (RefusedWanted (P.count_gives self.old.rules) self.old self.new class bytes (M.refused self.new.mapper).last) }
        ensures leaves { OnErr result (LeavesHeap self.old self.new) }
        ensures slots { KeepsSlots hand.old.view hand.new.view }
        ensures book { KeepsBook hand.old hand.new }
        ensures on { GoesOn self.old.seat self.new.seat }
        ensures rules { self.new.rules ≡ self.old.rules }
    {
        if let Some(first) = self.works.rings.first(class) {
            match pop(space, hand, first, class) {
                Pop::Won(slot) => return Ok(slot),
                Pop::Bare | Pop::Other { tag: _ } | Pop::Lost => {}
            }
        }
        match self.works.seat_slot(space, class, bytes) {
            Ok((meta, index)) => { Ok(space.slot_to_hand(&mut self.works.seat, hand, meta, index)) }
            Err(number) => Err(space.excuse_to_hand(&mut self.works.seat, hand, number)),
        }
    }

    /// Gets a slot that is a group by itself for a hand, for a block of so many bytes. The excuse of a refused map call
    /// comes instead.
    pub fn alloc_lone(
        &mut self,
        space: &Space<N>,
        hand: &mut Hand<N>,
        bytes: u64,
    ) -> Result<Slot<N>, Excuse<N>>
        requires large { 131052 ≤ bytes }
        requires bytes { bytes < 9223372036854771711 }
        requires cap { bytes ≤ N.facts.start.cap }
        ensures slot { IfOk result (IsSlotFor 63 bytes hand.new) }
        ensures gains { IfOk result (λ slot. GainsSlot slot.meta slot.index hand.old.view hand.new.view) }
        ensures apart { IfOk result (λ slot. (token : Token) → HasSlot hand.old token → IsApart token slot) }
        ensures calm { OnOk result
            (NotesNone (M.refused self.old.mapper) (M.refused self.new.mapper)) }
        ensures stores { OnOk result (self.new.seat.stores ≡ self.old.seat.stores) }
        ensures builds { IfOk result (λ slot. BuildsLone slot.meta self.old self.new bytes) }
        ensures excuse { IfErr result
            (GetsExcuse (pages_for bytes) hand.old hand.new
            (M.refused self.old.mapper) (M.refused self.new.mapper)) }
        ensures cause { OnErr result (IsLoneRefused self.old self.new bytes (M.refused self.new.mapper).last) }
        ensures leaves { OnErr result (LeavesHeap self.old self.new) }
        ensures slots { KeepsSlots hand.old.view hand.new.view }
        ensures book { KeepsBook hand.old hand.new }
        ensures on { GoesOn self.old.seat self.new.seat }
        ensures rules { self.new.rules ≡ self.old.rules }
    {
        match self.works.seat_lone(space, bytes) {
            Ok(meta) => Ok(space.slot_to_hand(&mut self.works.seat, hand, meta, 0)),
            Err(number) => Err(space.excuse_to_hand(&mut self.works.seat, hand, number)),
        }
    }

    /// Takes a slot back from a hand. Its group is torn down where all of its slots are back then and it may go.
    pub fn return_slot(&mut self, space: &Space<N>, hand: &mut Hand<N>, slot: Slot<N>)
        requires slot { HasSlot hand.old slot }
        ensures view { hand.new.view ≡ pushed hand.old.view slot.meta slot.index }
        ensures others { (token : Token) → HasSlot hand.old token → IsApart token slot → HasSlot hand.new token }
        ensures blocks { (block : BlockToken) → HasBlock hand.old block → HasBlock hand.new block }
        ensures calm { NotesNone (M.refused self.old.mapper) (M.refused self.new.mapper) }
        ensures returns { ReturnsOfHand (P.keep_gives self.old.rules) M.runs self.old self.new slot.meta slot.index }
        ensures book { KeepsBook hand.old hand.new }
        ensures on { GoesOn self.old.seat self.new.seat }
        ensures rules { self.new.rules ≡ self.old.rules }
    {
        let (meta, index) = (slot.meta(), slot.index());
        space.slot_to_seat(hand, &mut self.works.seat, slot);
        let group = group_of_slot(space, &mut self.works.seat, meta);
        self.works.seat_return(space, meta, index, &group);
    }

    /// Ends the core: the seat and the mapper come back. Each noted run is an area or that of a live group, and the metas
    /// without a live group are known to be 0. The live pages are one for each area, and those of each live group with pages.
    pub fn close(self) -> (LockSeat<N>, M)
    where
        P: Drop,
        ensures seat { result.0 ≡ self.seat }
        ensures mapper { result.1 ≡ self.mapper }
        ensures settled { IsSettled self.seat }
        ensures blanked { IsBlanked self.seat }
        ensures left { IsHandedBack N.facts self.seat (M.span self.mapper) (M.runs self.mapper) (M.refused self.mapper) }
    {
        let Core { works } = self;
        let Works {
            seat,
            rings: _,
            stock: _,
            parents: _,
            usage: _,
            bounce: _,
            counter: _,
            mapper,
            rules: _,
        } = works;
        (seat, mapper)
    }
}
