// A heap that threads share: its core stands behind a lock.
ghost use Rattle.std.specs.Prelude.{◌≡◌, ◌<◌, ◌≤◌, ◌*◌, ◌↔◌, ℕ, All, Contains, Err, IfErr, IfOk, IsOk, OnOk, vec_capacity};
ghost use Rattle.ng_frame.specs.Inspects.{Refuses, free_entry};
ghost use Rattle.ng_heap.specs.At.{HasAtCause, IsOwnFree, at_entry};
ghost use Rattle.ng_heap.specs.Freeing.{Frees};
ghost use Rattle.ng_heap.specs.Making.{IsGivenNow, IsMade, RefusesNow, RefusesProduct, calloc_entry, request_entry};
ghost use Rattle.ng_bytes.specs.Contents.{AreZero};
ghost use Rattle.ng_space.specs.Blocks.{BlockToken, HasBlock, HasFramed, OfSlot};
ghost use Rattle.ng_space.specs.Leaving.{Entered, KeepsBook, KeepsSlots, Leaves, LeavesAll};
ghost use Rattle.ng_space.specs.Tokens.{HasSlot};
ghost use Rattle.ng_terms.specs.Heap.{IsTooLarge, large};
ghost use Rattle.ng_terms.specs.declared.refusal.AllocRefusal.TheVariants as refusal;
ghost use Rattle.ng_view.specs.Steps.{pushed};

use crate::asking::asked_bytes;
use crate::freeing::Unlocked;
use crate::freeing_at::AtRefusal;
use crate::heap::Heap;
use crate::quick::Quick;
use ng_bytes::clear;
use ng_frame::Damage;
use ng_group::Core;
use ng_mapper::Mapper;
use ng_policy::Rules;
use ng_space::{Block, Hand, Name, Slot};
use ng_terms::AllocRefusal;
use std::sync::{Mutex, Wait};

/// A heap with its core behind a lock, which threads share by reference. What holds of a core by its type
/// holds whenever the lock is taken.
#[derive(Drop)]
pub struct SharedHeap<N: Name, M: Mapper, P: Rules> {
    heap: Heap<N>,
    core: Mutex<Core<N, M, P>>,
}

impl<N: Name, M: Mapper, P: Rules> SharedHeap<N, M, P> {
    /// Puts a heap's core behind a lock.
    pub fn new(heap: Heap<N>, core: Core<N, M, P>) -> SharedHeap<N, M, P> {
        SharedHeap {
            heap,
            core: Mutex::new(core),
        }
    }

    /// The heap without its core.
    pub fn heap(&self) -> &Heap<N> {
        &self.heap
    }

    /// The core behind its lock.
    pub fn core(&self) -> &Mutex<Core<N, M, P>> {
        &self.core
    }

    /// The heap and its core, when no thread shares them any more.
    pub fn parts(self) -> (Heap<N>, Core<N, M, P>) {
        let SharedHeap { heap, core } = self;
        (heap, core.into_inner())
    }

    /// Gives a block of `n` bytes, aligned to 16, without the lock where the active group of their class has a
    /// slot. The request is entered, also where it is refused.
    pub fn malloc<R: Wait>(
        &self,
        rt: &R,
        hand: &mut Hand<N>,
        n: u64,
    ) -> Result<Block<N>, AllocRefusal>
        requires spare { 1 ≤ hand.old.spare }
        requires cap { n < large → n ≤ N.facts.start.cap }
        ensures made { IfOk result (λ block. IsMade n 16 hand.old block hand.new) }
        ensures given { IfOk result (λ block. (counter : ℕ) × IsGivenNow hand.old.view block counter hand.new) }
        ensures large { (result ≡ Err refusal.TooLarge) ↔ IsTooLarge 1 n 16 }
        ensures refuses { IfErr result (λ why. RefusesNow n 16 hand.old why hand.new.view) }

        ensures entered { Entered hand.old hand.new (request_entry n 16 result) }
        ensures leaves { IfOk result (λ block. Leaves block.slot hand.old.view hand.new.view) }
        ensures kept { IfErr result (λ why. LeavesAll hand.old.view hand.new.view) }
        ensures slots { KeepsSlots hand.old.view hand.new.view }
    {
        match self.heap.malloc_unlocked(hand, n) {
            Quick::Given(block) => Ok(block),
            Quick::TooLarge => Err(AllocRefusal::TooLarge),
            Quick::Large | Quick::Idle | Quick::Bare | Quick::Other { tag: _ } | Quick::Lost => {
                let mut core = self.core.lock(rt);
                self.heap.malloc_in(&mut core, hand, n)
            }
        }
    }

    /// Gives a block of `count` elements of `size` bytes, aligned to 16, whose bytes are 0. The block is taken as by
    /// [`SharedHeap::malloc`], and cleared without the lock. The request is entered, also where it is refused; one whose
    /// bytes are beyond every heap is too large.
    pub fn calloc<R: Wait>(
        &self,
        rt: &R,
        hand: &mut Hand<N>,
        count: u64,
        size: u64,
    ) -> Result<Block<N>, AllocRefusal>
        requires spare { 1 ≤ hand.old.spare }
        requires cap { count * size < large → count * size ≤ N.facts.start.cap }
        ensures made { IfOk result (λ block. IsMade (count * size) 16 hand.old block hand.new) }
        ensures zero { IfOk result (λ block. OfSlot hand.new block.slot (AreZero block.at block.len)) }
        ensures given { IfOk result (λ block. (counter : ℕ) × IsGivenNow hand.old.view block counter hand.new) }
        ensures large { (result ≡ Err refusal.TooLarge) ↔ IsTooLarge count size 16 }
        ensures refuses { IfErr result (λ why. RefusesProduct count size hand.old why hand.new.view) }

        ensures entered { Entered hand.old hand.new (calloc_entry count size result) }
        ensures leaves { IfOk result (λ block. Leaves block.slot hand.old.view hand.new.view) }
        ensures kept { IfErr result (λ why. LeavesAll hand.old.view hand.new.view) }
        ensures slots { KeepsSlots hand.old.view hand.new.view }
    {
        let Some(bytes) = asked_bytes(count, size, 16) else {
            self.heap.enter_too_large(hand, count, size, 16);
            return Err(AllocRefusal::TooLarge);
        };
        match self.malloc(rt, hand, bytes) {
            Ok(block) => {
                clear(self.heap.space(), hand, &block, bytes);
                Ok(block)
            }
            Err(why) => Err(why),
        }
    }

    /// Takes a block back, without the lock where its slot can go into the freed mask of its group. A block
    /// whose frame is damaged comes back, and nothing is stored. Either is entered.
    pub fn free<R: Wait>(
        &self,
        rt: &R,
        hand: &mut Hand<N>,
        block: Block<N>,
    ) -> Result<(), (Block<N>, Damage)>
        requires spare { 1 ≤ hand.old.spare }
        requires block { HasBlock hand.old block }
        ensures framed { HasFramed hand.old block → IsOk result }

        ensures block { IfErr result (λ left. left.0 ≡ block) }
        ensures cause { IfErr result (λ left. Refuses hand.old block left.1 hand.new) }
        ensures still { IfErr result (λ left. HasBlock hand.new left.0) }
        ensures kept { IfErr result (λ left. LeavesAll hand.old.view hand.new.view) }
        ensures frees { OnOk result (Frees hand.old block hand.new.view) }

        ensures entered { Entered hand.old hand.new (free_entry block.at result) }
        ensures leaves { Leaves block.slot hand.old.view hand.new.view }
    {
        match self.heap.free_unlocked(hand, block)? {
            Unlocked::Done => {}
            Unlocked::Left(slot, _) => self.settle(rt, hand, slot),
        }
        Ok(())
    }

    /// Returns a slot that a free left in the hand, under the lock.
    pub fn settle<R: Wait>(&self, rt: &R, hand: &mut Hand<N>, slot: Slot<N>)
        requires slot { HasSlot hand.old slot }
        ensures view { hand.new.view ≡ pushed hand.old.view slot.meta slot.index }
        ensures leaves { Leaves slot hand.old.view hand.new.view }
        ensures book { KeepsBook hand.old hand.new }
    {
        let mut core = self.core.lock(rt);
        self.heap.settle_in(&mut core, hand, slot)
    }

    /// Frees the block with an address, one of those held, under the lock. The address is checked first. Either a block is
    /// freed and taken out of `held`, where the last one comes into its place; or the address is refused, which is entered,
    /// and nothing is stored.
    pub fn free_at<R: Wait>(
        &self,
        rt: &R,
        hand: &mut Hand<N>,
        held: &mut Vec<Block<N>>,
        addr: u64,
    ) -> Result<(), AtRefusal>
        requires spare { 1 ≤ hand.old.spare }
        requires held { All (HasBlock hand.old) held.old.items }
        ensures cause { HasAtCause N.facts.start (λ probed block. Frees probed block hand.new.view)
            hand.old addr held.old.items result held.new.items hand.new.view }
        ensures own { (block : BlockToken) → Contains held.old.items block → block.at ≡ addr → IsOwnFree result }
        ensures held { IfErr result (λ why. held.new ≡ held.old) }
        ensures room { vec_capacity held.new ≡ vec_capacity held.old }
        ensures kept { IfErr result (λ why. LeavesAll hand.old.view hand.new.view) }
        ensures entered { Entered hand.old hand.new (at_entry addr result) }
    {
        let mut core = self.core.lock(rt);
        self.heap.free_at(&mut core, hand, held, addr)
    }
}
