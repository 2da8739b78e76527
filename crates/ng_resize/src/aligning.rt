// Blocks that are given with an align.
ghost use Rattle.std.specs.Prelude.{◌≡◌, ◌<◌, ◌≤◌, ◌↔◌, Err, IfErr, IfOk, IsTrue, OnOk};
ghost use Rattle.ng_group.specs.Steps.{GoesOn};
ghost use Rattle.ng_heap.specs.Causes.{BuildsFor};
ghost use Rattle.ng_heap.specs.Making.{IsGivenNow};
ghost use Rattle.ng_mapper.specs.Mapping.{NotesNone};
ghost use Rattle.ng_resize.specs.Aligning.{HasAlignCause, RefusesAligned, aligned_entry};
ghost use Rattle.ng_frame.specs.Puts.{asked_for};
ghost use Rattle.ng_heap.specs.Making.{IsMade};
ghost use Rattle.ng_resize.specs.declared.refusal.AlignRefusal.TheVariants as refusal;
ghost use Rattle.ng_space.specs.Leaving.{Entered, KeepsSlots, Leaves, LeavesAll};
ghost use Rattle.ng_terms.specs.Heap.{IsAlignment, IsTooLarge, large};

use crate::refusal::AlignRefusal;
use ng_group::Core;
use ng_heap::Heap;
use ng_history::Entry;
use ng_mapper::Mapper;
use ng_policy::Rules;
use ng_space::{Block, Hand, Name};
use ng_terms::AllocRefusal;

/// Gives a block of `n` bytes at a multiple of `align` and of 16, under the core's lock. The align is 0 or a power of two. The
/// request is entered, also where it is refused; a bad align is refused first.
pub fn aligned_in<N: Name, M: Mapper, P: Rules>(
    heap: &Heap<N>,
    core: &mut Core<N, M, P>,
    hand: &mut Hand<N>,
    align: u64,
    n: u64,
) -> Result<Block<N>, AlignRefusal>
    requires spare { 1 ≤ hand.old.spare }
    requires cap { asked_for n align < large → asked_for n align ≤ N.facts.start.cap }
    ensures made { IfOk result (λ block. IsMade n align hand.old block hand.new) }
    ensures builds { IfOk result (λ block. BuildsFor (P.count_gives core.old.rules) core.old core.new (asked_for n align) hand.new block.slot) }
    ensures given { IfOk result (λ block. IsGivenNow hand.old.view block core.new.counter hand.new) }
    ensures calm { OnOk result (NotesNone (M.refused core.old.mapper) (M.refused core.new.mapper)) }

    ensures alignment { OnOk result (IsAlignment align) }
    ensures bad { (result ≡ Err refusal.BadAlign) ↔ (¬ IsAlignment align) }
    ensures large { (result ≡ Err refusal.TooLarge) ↔ (IsAlignment align × IsTooLarge 1 n align) }
    ensures refuses { IfErr result (λ why. RefusesAligned align n hand.old why hand.new.view) }
    ensures cause { IfErr result (HasAlignCause (P.count_gives core.old.rules) M.refused core.old core.new align n) }

    // What the hand and the core have besides.
    ensures entered { Entered hand.old hand.new (aligned_entry align n result) }
    ensures leaves { IfOk result (λ block. Leaves block.slot hand.old.view hand.new.view) }
    ensures kept { IfErr result (λ why. LeavesAll hand.old.view hand.new.view) }
    ensures slots { KeepsSlots hand.old.view hand.new.view }
    ensures on { GoesOn core.old.seat core.new.seat }
    ensures rules { core.new.rules ≡ core.old.rules }
{
    if !is_alignment(align) {
        heap.space().enter(hand, Entry::BadAlign { align });
        return Err(AlignRefusal::BadAlign);
    }
    match heap.request_in(core, hand, n, align) {
        Ok(block) => Ok(block),
        Err(AllocRefusal::NoMemory { excuse }) => Err(AlignRefusal::NoMemory { excuse }),
        Err(AllocRefusal::TooLarge) => Err(AlignRefusal::TooLarge),
    }
}

// Whether a number is 0 or a power of two.
fn is_alignment(align: u64) -> bool
    ensures exact { IsTrue result ↔ IsAlignment align }
{
    align & align.wrapping_neg() == align
}
