// What is looked at before a block gets another length.
ghost use Rattle.std.specs.Prelude.{◌≡◌, ◌+◌, ◌<◌, ◌≤◌, ◌↔◌, IfErr, IfOk, IsOk, IsTrue, Some};
ghost use Rattle.std.specs.Result.{result_err};
ghost use Rattle.ng_frame.specs.Inspects.{Inspects, gap_of};
ghost use Rattle.ng_frame.specs.Judging.{IsKnownDamage};
ghost use Rattle.ng_resize.specs.Fitting.{MayStay};
ghost use Rattle.ng_resize.specs.Looking.{LooksFirst};
ghost use Rattle.ng_resize.specs.Steps.{WasWhole};
ghost use Rattle.ng_space.specs.Blocks.{HasBlock, HasFramed, OfSlot};
ghost use Rattle.ng_space.specs.Leaving.{KeepsBook, LeavesAll};
ghost use Rattle.ng_terms.specs.Heap.{large};

use crate::fitting::may_stay;
use ng_frame::{Damage, nominal_size};
use ng_space::{Block, Hand, Name, Space};

/// What is found of a block whose frame has no damage.
#[derive(Clone, Copy, Debug, PartialEq, Eq)]
pub(crate) struct Found {
    /// Its length, as its frame tells it.
    pub(crate) len: u64,
    /// Whether the rule has it stay where it is.
    pub(crate) stays: bool,
}

/// Looks at a block that is to have `n` bytes: at its frame, and then whether the rule has it stay. Nothing is stored.
pub(crate) fn look_first<N: Name>(
    space: &Space<N>,
    hand: &mut Hand<N>,
    block: &Block<N>,
    n: u64,
) -> Result<Found, Damage>
    requires block { HasBlock hand.old block.now }
    requires small { n < large }
    ensures looks { IfOk result (λ found. LooksFirst hand.old block.now found.len hand.new) }
    ensures exact { IfOk result (λ found. OfSlot hand.new block.now.slot (λ h. IsTrue found.stays ↔ MayStay n block.now h)) }
    ensures within { IfOk result (λ found. IsTrue found.stays → block.now.at + n ≤ block.now.slot.end) }
    ensures whole { IfOk result (λ found. OfSlot hand.new block.now.slot (WasWhole block.now found.len)) }
    ensures some { IfOk result (λ found. found.len ≤ gap_of block.now) }

    ensures damage { IfErr result (λ damage. Inspects hand.old.view block.now (Some damage) hand.new.view) }
    ensures known { IsKnownDamage hand.old block.now (result_err result) }
    ensures framed { HasFramed hand.old block.now → IsOk result }

    ensures leaves { LeavesAll hand.old.view hand.new.view }
    ensures book { KeepsBook hand.old hand.new }
{
    match nominal_size(space, hand, block) {
        Ok(len) => {
            let stays = may_stay(space, hand, block, n);
            Ok(Found { len, stays })
        }
        Err(damage) => Err(damage),
    }
}
