// Blocks that are freed by their address, once it is checked.
ghost use Rattle.std.specs.Prelude.{◌≡◌, ◌≤◌, All, Contains, IfErr, length, vec_capacity};
ghost use Rattle.ng_group.specs.Steps.{GoesOn};
ghost use Rattle.ng_heap.specs.At.{HasAtCause, IsOwnFree, IsPlaceAt, at_entry, refusal_number};
ghost use Rattle.ng_heap.specs.Freeing.{FreesIn};
ghost use Rattle.ng_mapper.specs.Mapping.{NotesNone};
ghost use Rattle.ng_space.specs.Blocks.{BlockToken, HasBlock};
ghost use Rattle.ng_space.specs.Entries.{Enters};
ghost use Rattle.ng_space.specs.Leaving.{Entered, LeavesAll};
ghost use Rattle.ng_terms.specs.declared.entry.Entry.TheVariants.{Refused};

use crate::heap::Heap;
use ng_check::BadPointer;
use ng_group::Core;
use ng_mapper::Mapper;
use ng_policy::Rules;
use ng_space::{Block, Hand, Name};
use ng_terms::Entry;

/// Why an address isn't freed.
#[derive(Clone, Copy, Debug, PartialEq, Eq)]
pub enum AtRefusal {
    /// A check of the pointer failed.
    Bad(BadPointer),
    /// The pointer passed each check, but none of the blocks that are held has the address.
    NotHeld,
}

impl AtRefusal {
    /// Its number in the entry of a refused pointer, from 1 to 15.
    pub fn number(self) -> u32
        ensures value { result ≡ refusal_number self }
        ensures some { 1 ≤ result }
        ensures few { result ≤ 15 }
    {
        match self {
            AtRefusal::Bad(bad) => bad.fault.number(),
            AtRefusal::NotHeld => 15,
        }
    }
}

impl<N: Name> Heap<N> {
    /// Frees the block with an address, one of those held, under the core's lock. The address is checked first. Either a
    /// block is freed and taken out of `held`, where the last one comes into its place; or the address is refused, which is
    /// entered, and nothing is stored.
    pub fn free_at<M: Mapper, P: Rules>(
        &self,
        core: &mut Core<N, M, P>,
        hand: &mut Hand<N>,
        held: &mut Vec<Block<N>>,
        addr: u64,
    ) -> Result<(), AtRefusal>
        requires spare { 1 ≤ hand.old.spare }
        requires held { All (HasBlock hand.old) held.old.items }
        ensures cause { HasAtCause N.facts.start (λ probed block. FreesIn (P.keep_gives core.old.rules) M.runs probed block core.old core.new hand.new.view)
            hand.old addr held.old.items result held.new.items hand.new.view }
        ensures own { (block : BlockToken) → Contains held.old.items block → block.at ≡ addr → IsOwnFree result }

        ensures core { IfErr result (λ why. core.new ≡ core.old) }
        ensures held { IfErr result (λ why. held.new ≡ held.old) }
        ensures room { vec_capacity held.new ≡ vec_capacity held.old }
        ensures kept { IfErr result (λ why. LeavesAll hand.old.view hand.new.view) }

        ensures entered { Entered hand.old hand.new (at_entry addr result) }
        ensures calm { NotesNone (M.refused core.old.mapper) (M.refused core.new.mapper) }
        ensures on { GoesOn core.old.seat core.new.seat }
        ensures rules { core.new.rules ≡ core.old.rules }
    {
        let place = place_at(held.as_slice(), addr);
        self.free_in_place(core, hand, held, addr, place)
    }

    /// The same where the caller knows the place of the block with the address in `held`, so that a long list isn't walked.
    /// No place is given where none of them has it.
    pub fn free_in_place<M: Mapper, P: Rules>(
        &self,
        core: &mut Core<N, M, P>,
        hand: &mut Hand<N>,
        held: &mut Vec<Block<N>>,
        addr: u64,
        place: Option<usize>,
    ) -> Result<(), AtRefusal>
        requires spare { 1 ≤ hand.old.spare }
        requires held { All (HasBlock hand.old) held.old.items }
        requires place { IsPlaceAt held.old.items addr place }
        ensures cause { HasAtCause N.facts.start (λ probed block. FreesIn (P.keep_gives core.old.rules) M.runs probed block core.old core.new hand.new.view)
            hand.old addr held.old.items result held.new.items hand.new.view }
        ensures own { (block : BlockToken) → Contains held.old.items block → block.at ≡ addr → IsOwnFree result }

        ensures core { IfErr result (λ why. core.new ≡ core.old) }
        ensures held { IfErr result (λ why. held.new ≡ held.old) }
        ensures room { vec_capacity held.new ≡ vec_capacity held.old }
        ensures kept { IfErr result (λ why. LeavesAll hand.old.view hand.new.view) }

        ensures entered { Entered hand.old hand.new (at_entry addr result) }
        ensures calm { NotesNone (M.refused core.old.mapper) (M.refused core.new.mapper) }
        ensures on { GoesOn core.old.seat core.new.seat }
        ensures rules { core.new.rules ≡ core.old.rules }
    {
        if let Err(bad) = self.look(hand, addr) {
            return Err(self.refuse_at(hand, addr, AtRefusal::Bad(bad)));
        }
        let Some(place) = place else {
            return Err(self.refuse_at(hand, addr, AtRefusal::NotHeld));
        };
        let block = held.swap_remove(place);
        match self.free_in(core, hand, block) {
            Ok(()) => Ok(()),
            // What the check found of the block's frame is known, and the free finds it again.
            Err(_) => unreachable!(),
        }
    }

    // Enters the refusal of an address.
    fn refuse_at(&self, hand: &mut Hand<N>, addr: u64, why: AtRefusal) -> AtRefusal
        requires spare { 1 ≤ hand.old.spare }
        ensures why { result ≡ why }
        ensures enters { Enters hand.old.view hand.old.number (Refused addr (refusal_number why)) hand.new.view }
        ensures entered { Entered hand.old hand.new (Refused addr (refusal_number why)) }
        ensures leaves { LeavesAll hand.old.view hand.new.view }
    {
        let name = why.number();
        self.space.enter(hand, Entry::Refused { at: addr, name });
        why
    }
}

// The first place of a block with the address, if one has it.
fn place_at<N: Name>(held: &[Block<N>], addr: u64) -> Option<usize>
    ensures place { IsPlaceAt held.now addr result }
{
    held.iter().position(|block| block.at() == addr)
}
