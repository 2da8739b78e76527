// Blocks that are taken back.
ghost use Rattle.std.specs.Prelude.{◌≡◌, ◌≤◌, IfErr, IfOk, IsOk, OnOk};
ghost use Rattle.ng_frame.specs.Inspects.{Refuses, damage_of, free_entry};
ghost use Rattle.ng_frame.specs.Judging.{IsKnownDamage};
ghost use Rattle.ng_space.specs.Leaving.{Entered, KeepsBook, Leaves, LeavesAll};
ghost use Rattle.ng_mapper.specs.Mapping.{NotesNone};
ghost use Rattle.ng_group.specs.Returning.{ReturnsOfHand};
ghost use Rattle.ng_group.specs.Steps.{GoesOn};
ghost use Rattle.ng_heap.specs.Freeing.{FreesIn, FreesUnlocked, OnLeft};
ghost use Rattle.ng_space.specs.Blocks.{HasBlock, HasFramed};
ghost use Rattle.ng_space.specs.Tokens.{HasSlot};
ghost use Rattle.ng_view.specs.Steps.{pushed};

use crate::heap::Heap;
use ng_frame::{Damage, take_out};
use ng_group::Core;
use ng_mapper::Mapper;
use ng_mask::{Needs, Push, push};
use ng_policy::Rules;
use ng_space::{Block, Hand, Name, Slot};

/// What came of a free without the lock.
pub enum Unlocked<N: Name> {
    /// The slot is in the freed mask of its group.
    Done,
    /// The block is taken, and its slot is still the hand's, to be settled under the lock.
    Left(Slot<N>, Needs),
}

impl<N: Name> Heap<N> {
    /// Takes a block back without the lock. Its slot goes into the freed mask of its group, or is left for
    /// [`Heap::settle_in`]. A block whose frame is damaged comes back, and nothing is stored. Either is entered.
    pub fn free_unlocked(
        &self,
        hand: &mut Hand<N>,
        block: Block<N>,
    ) -> Result<Unlocked<N>, (Block<N>, Damage)>
        requires spare { 1 ≤ hand.old.spare }
        requires block { HasBlock hand.old block }
        ensures framed { HasFramed hand.old block → IsOk result }
        ensures known { IsKnownDamage hand.old block (damage_of result) }
        ensures frees { IfOk result (λ freed. FreesUnlocked hand.old block freed hand.new.view) }
        ensures left { IfOk result (λ freed. OnLeft freed (λ slot. slot ≡ block.slot)) }
        ensures has { IfOk result (λ freed. OnLeft freed (HasSlot hand.new)) }

        ensures block { IfErr result (λ left. left.0 ≡ block) }
        ensures cause { IfErr result (λ left. Refuses hand.old block left.1 hand.new) }
        ensures still { IfErr result (λ left. HasBlock hand.new left.0) }
        ensures kept { IfErr result (λ left. LeavesAll hand.old.view hand.new.view) }

        ensures entered { Entered hand.old hand.new (free_entry block.at result) }
        ensures leaves { Leaves block.slot hand.old.view hand.new.view }
    {
        let slot = take_out(&self.space, hand, block)?;
        match push(&self.space, hand, slot) {
            Push::Done => Ok(Unlocked::Done),
            Push::Left(slot, needs) => Ok(Unlocked::Left(slot, needs)),
        }
    }

    /// Takes a block back under the core's lock. A block whose frame is damaged comes back, and nothing is stored. Either
    /// is entered.
    pub fn free_in<M: Mapper, P: Rules>(
        &self,
        core: &mut Core<N, M, P>,
        hand: &mut Hand<N>,
        block: Block<N>,
    ) -> Result<(), (Block<N>, Damage)>
        requires spare { 1 ≤ hand.old.spare }
        requires block { HasBlock hand.old block }
        ensures framed { HasFramed hand.old block → IsOk result }
        ensures known { IsKnownDamage hand.old block (damage_of result) }

        ensures block { IfErr result (λ left. left.0 ≡ block) }
        ensures cause { IfErr result (λ left. Refuses hand.old block left.1 hand.new) }
        ensures still { IfErr result (λ left. HasBlock hand.new left.0) }
        ensures kept { IfErr result (λ left. LeavesAll hand.old.view hand.new.view) }
        ensures unchanged { IfErr result (λ left. core.new ≡ core.old) }
        ensures frees { OnOk result (FreesIn (P.keep_gives core.old.rules) M.runs hand.old block core.old core.new hand.new.view) }

        ensures entered { Entered hand.old hand.new (free_entry block.at result) }
        ensures leaves { Leaves block.slot hand.old.view hand.new.view }
        ensures calm { NotesNone (M.refused core.old.mapper) (M.refused core.new.mapper) }
        ensures on { GoesOn core.old.seat core.new.seat }
        ensures rules { core.new.rules ≡ core.old.rules }
    {
        match self.free_unlocked(hand, block)? {
            Unlocked::Done => {}
            Unlocked::Left(slot, _) => self.settle_in(core, hand, slot),
        }
        Ok(())
    }

    /// Returns a slot that a free left in the hand, under the core's lock.
    pub fn settle_in<M: Mapper, P: Rules>(
        &self,
        core: &mut Core<N, M, P>,
        hand: &mut Hand<N>,
        slot: Slot<N>,
    )
        requires slot { HasSlot hand.old slot }
        ensures returns { ReturnsOfHand (P.keep_gives core.old.rules) M.runs core.old core.new slot.meta slot.index }
        ensures view { hand.new.view ≡ pushed hand.old.view slot.meta slot.index }
        ensures leaves { Leaves slot hand.old.view hand.new.view }
        ensures book { KeepsBook hand.old hand.new }
        ensures calm { NotesNone (M.refused core.old.mapper) (M.refused core.new.mapper) }
        ensures on { GoesOn core.old.seat core.new.seat }
        ensures rules { core.new.rules ≡ core.old.rules }
    {
        core.return_slot(&self.space, hand, slot);
    }
}
