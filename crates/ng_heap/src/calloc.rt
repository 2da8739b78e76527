// Blocks that are given with their bytes 0.
ghost use Rattle.std.specs.Prelude.{◌≡◌, ◌*◌, ◌<◌, ◌≤◌, ◌↔◌, Err, IfErr, IfOk, OnOk};
ghost use Rattle.ng_group.specs.Steps.{GoesOn};
ghost use Rattle.ng_heap.specs.Causes.{BuildsFor, HasRefusalCause};
ghost use Rattle.ng_heap.specs.Making.{IsGivenNow, IsMade, RefusesProduct, calloc_entry};
ghost use Rattle.ng_bytes.specs.Contents.{AreZero};
ghost use Rattle.ng_mapper.specs.Mapping.{NotesNone};
ghost use Rattle.ng_space.specs.Blocks.{OfSlot};
ghost use Rattle.ng_space.specs.Leaving.{Entered, KeepsSlots, Leaves, LeavesAll};
ghost use Rattle.ng_terms.specs.Heap.{IsTooLarge, large};
ghost use Rattle.ng_terms.specs.declared.refusal.AllocRefusal.TheVariants as refusal;

use crate::asking::asked_bytes;
use crate::heap::Heap;
use ng_bytes::clear;
use ng_group::Core;
use ng_mapper::Mapper;
use ng_policy::Rules;
use ng_space::{Block, Hand, Name};
use ng_terms::AllocRefusal;

impl<N: Name> Heap<N> {
    /// Gives a block of `count` elements of `size` bytes, aligned to 16, whose bytes are 0, under the core's lock. The
    /// request is entered, also where it is refused; one whose bytes are beyond every heap is too large.
    pub fn calloc_in<M: Mapper, P: Rules>(
        &self,
        core: &mut Core<N, M, P>,
        hand: &mut Hand<N>,
        count: u64,
        size: u64,
    ) -> Result<Block<N>, AllocRefusal>
        requires spare { 1 ≤ hand.old.spare }
        requires cap { count * size < large → count * size ≤ N.facts.start.cap }

        ensures made { IfOk result (λ block. IsMade (count * size) 16 hand.old block hand.new) }
        ensures zero { IfOk result (λ block. OfSlot hand.new block.slot (AreZero block.at block.len)) }
        ensures builds { IfOk result (λ block. BuildsFor (P.count_gives core.old.rules) core.old core.new (count * size) hand.new block.slot) }
        ensures given { IfOk result (λ block. IsGivenNow hand.old.view block core.new.counter hand.new) }
        ensures calm { OnOk result
            (NotesNone (M.refused core.old.mapper) (M.refused core.new.mapper)) }

        ensures large { (result ≡ Err refusal.TooLarge) ↔ IsTooLarge count size 16 }
        ensures cause { IfErr result (HasRefusalCause (P.count_gives core.old.rules) M.refused core.old core.new (count * size)) }
        ensures refuses { IfErr result (λ why. RefusesProduct count size hand.old why hand.new.view) }

        // What the hand and the core have besides.
        ensures entered { Entered hand.old hand.new (calloc_entry count size result) }
        ensures leaves { IfOk result (λ block. Leaves block.slot hand.old.view hand.new.view) }
        ensures kept { IfErr result (λ why. LeavesAll hand.old.view hand.new.view) }
        ensures slots { KeepsSlots hand.old.view hand.new.view }
        ensures on { GoesOn core.old.seat core.new.seat }
        ensures rules { core.new.rules ≡ core.old.rules }
    {
        let Some(bytes) = asked_bytes(count, size, 16) else {
            self.enter_too_large(hand, count, size, 16);
            return Err(AllocRefusal::TooLarge);
        };
        match self.malloc_in(core, hand, bytes) {
            Ok(block) => {
                clear(&self.space, hand, &block, bytes);
                Ok(block)
            }
            Err(why) => Err(why),
        }
    }
}
