// The same over a heap that threads share.
ghost use Rattle.std.specs.Prelude.{◌≡◌, ℕ, ◌<◌, ◌≤◌, ◌↔◌, Err, IfErr, IfOk, OnOk, Ok, Some, None, min};
ghost use Rattle.ng_frame.specs.Judging.{IsKnownDamage};
ghost use Rattle.ng_group.specs.Hands.{IsApart};
ghost use Rattle.ng_heap.specs.Keeps.{KeepsFrames};
ghost use Rattle.ng_heap.specs.Making.{IsGivenNow};
ghost use Rattle.ng_resize.specs.Aligning.{RefusesAligned, aligned_entry};
ghost use Rattle.ng_resize.specs.Fitting.{StaysInPlace};
ghost use Rattle.ng_resize.specs.Moving.{KeepsFirst, frees_alone, makes_alone};
ghost use Rattle.ng_resize.specs.Refusals.{EnteredAll, damage_told, realloc_entries, refusal_of};
ghost use Rattle.ng_resize.specs.Resizing.{HasResizeCause, IsLeft, IsResized, KeepsApart, with_len};
ghost use Rattle.ng_frame.specs.Puts.{asked_for};
ghost use Rattle.ng_heap.specs.Making.{IsMade};
ghost use Rattle.ng_resize.specs.declared.refusal.AlignRefusal.TheVariants as refusal;
ghost use Rattle.ng_resize.specs.declared.refusal.ResizeRefusal.TheVariants.{TooLarge};
ghost use Rattle.ng_space.specs.Blocks.{BlockToken, HasBlock, HasFramed, OfSlot};
ghost use Rattle.ng_space.specs.Leaving.{Entered, KeepsRest, KeepsSlots, Leaves, LeavesAll};
ghost use Rattle.ng_terms.specs.Heap.{IsAlignment, IsTooLarge, large};

use crate::aligning::aligned_in;
use crate::refusal::{AlignRefusal, ResizeRefusal};
use crate::resizing::realloc_in;
use ng_heap::SharedHeap;
use ng_mapper::Mapper;
use ng_policy::Rules;
use ng_space::{Block, Hand, Name};
use std::sync::Wait;

/// Gives a block another length as [`realloc_in`] does, under the lock of a heap that threads share.
pub fn realloc<N: Name, M: Mapper, P: Rules, R: Wait>(
    heap: &SharedHeap<N, M, P>,
    rt: &R,
    hand: &mut Hand<N>,
    block: Block<N>,
    n: u64,
) -> Result<Block<N>, (Block<N>, ResizeRefusal)>
    requires spare { 2 ≤ hand.old.spare }
    requires block { HasBlock hand.old block }
    requires cap { n < large → n ≤ N.facts.start.cap }
    ensures resized { IfOk result (λ new. IsResized n hand.old block new hand.new) }
    ensures stays { n < large → HasFramed hand.old block
        → OfSlot hand.old block.slot (λ h. (result ≡ Ok (with_len n block)) ↔ StaysInPlace n block h) }
    ensures kept { IfOk result (λ new. HasFramed hand.old block → KeepsFirst (min block.len n) hand.old block hand.new new) }

    ensures large { (refusal_of result ≡ Some TooLarge) ↔ IsTooLarge 1 n 16 }
    ensures damage { n < large → IsKnownDamage hand.old block (damage_told result) }
    ensures framed { HasFramed hand.old block → damage_told result ≡ None }
    ensures left { IfErr result (λ left. IsLeft hand.old block left.0 hand.new) }

    ensures cause { HasResizeCause (makes_alone n) (frees_alone block) hand.old block n result hand.new }

    // What the hand has besides.
    ensures entered { EnteredAll hand.old hand.new (realloc_entries block n result) }
    ensures apart { KeepsApart block hand.old.view hand.new.view }
    ensures others { (other : BlockToken) → IsApart other.slot block.slot → HasFramed hand.old other → HasFramed hand.new other }
    ensures frames { KeepsFrames hand.old hand.new }
    ensures rest { KeepsRest hand.old.view hand.new.view }
{
    let mut core = heap.core().lock(rt);
    realloc_in(heap.heap(), &mut core, hand, block, n)
}

/// Gives a block with an align as [`aligned_in`] does, under the lock of a heap that threads share.
pub fn aligned_alloc<N: Name, M: Mapper, P: Rules, R: Wait>(
    heap: &SharedHeap<N, M, P>,
    rt: &R,
    hand: &mut Hand<N>,
    align: u64,
    n: u64,
) -> Result<Block<N>, AlignRefusal>
    requires spare { 1 ≤ hand.old.spare }
    requires cap { asked_for n align < large → asked_for n align ≤ N.facts.start.cap }
    ensures made { IfOk result (λ block. IsMade n align hand.old block hand.new) }
    ensures given { IfOk result (λ block. (counter : ℕ) × IsGivenNow hand.old.view block counter hand.new) }

    ensures alignment { OnOk result (IsAlignment align) }
    ensures bad { (result ≡ Err refusal.BadAlign) ↔ (¬ IsAlignment align) }
    ensures large { (result ≡ Err refusal.TooLarge) ↔ (IsAlignment align × IsTooLarge 1 n align) }
    ensures refuses { IfErr result (λ why. RefusesAligned align n hand.old why hand.new.view) }

    ensures entered { Entered hand.old hand.new (aligned_entry align n result) }
    ensures leaves { IfOk result (λ block. Leaves block.slot hand.old.view hand.new.view) }
    ensures kept { IfErr result (λ why. LeavesAll hand.old.view hand.new.view) }
    ensures slots { KeepsSlots hand.old.view hand.new.view }
{
    let mut core = heap.core().lock(rt);
    aligned_in(heap.heap(), &mut core, hand, align, n)
}
