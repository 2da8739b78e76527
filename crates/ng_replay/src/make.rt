ghost use Rattle.std.specs.Prelude.{◌≡◌, ◌≤◌, IfSome, IsTrue, None, Some};
ghost use Rattle.ng_replay.specs.Caps.{IsSizeCapped};
ghost use Rattle.ng_replay.specs.Serving.{IsReplyTo, Makes, block_of, left_of, made_of, made_of_aligned};
ghost use Rattle.ng_bytes.specs.Contents.{AreZero};
ghost use Rattle.ng_resize.specs.Refusals.{damage_told};
ghost use Rattle.ng_space.specs.Blocks.{OfSlot};
ghost use Rattle.ng_terms.specs.Calls.{align_of};

use ng_group::Core;
use ng_heap::{AllocRefusal, Heap};
use ng_mapper::Mapper;
use ng_policy::Rules;
use ng_resize::{AlignRefusal, ResizeRefusal, aligned_in};
use ng_space::{Block, Hand, Name};
use ng_terms::{Made, Mode, Reply};

/// Makes a block of a size for a hand under the mode, and tells what came of it.
pub fn make<N: Name, M: Mapper, P: Rules>(
    heap: &Heap<N>,
    core: &mut Core<N, M, P>,
    hand: &mut Hand<N>,
    size: u64,
    mode: Mode,
) -> (Made, Option<Block<N>>)
    requires spare { 1 ≤ hand.old.spare }
    requires cap { IsSizeCapped mode N.facts.start.cap size }
    ensures made { Makes mode size hand.old result.0 result.1 hand.new }
    ensures zeroed { mode.align ≡ None → IsTrue mode.zero → IfSome result.1 (λ block. OfSlot hand.new block.slot (AreZero block.at block.len)) }
{
    match mode.align {
        Some(align) => make_aligned(heap, core, hand, size, mode, align),
        None => {
            if mode.zero {
                make_zeroed(heap, core, hand, size, mode)
            } else {
                outcome(heap.malloc_in(core, hand, size))
            }
        }
    }
}

/// Makes a block at a multiple of `align`, the mode's. Apart, as what it keeps at hand would be set up for a plain make
/// too.
fn make_aligned<N: Name, M: Mapper, P: Rules>(
    heap: &Heap<N>,
    core: &mut Core<N, M, P>,
    hand: &mut Hand<N>,
    size: u64,
    mode: Mode,
    align: u64,
) -> (Made, Option<Block<N>>)
    requires spare { 1 ≤ hand.old.spare }
    requires cap { IsSizeCapped mode N.facts.start.cap size }
    requires asked { mode.align ≡ Some align }
    ensures { Makes mode size hand.old result.0 result.1 hand.new }
{
    aligned_outcome(aligned_in(heap, core, hand, align, size))
}

/// Makes a block of zeros where the mode asks for no align. Apart, as `make_aligned` is.
fn make_zeroed<N: Name, M: Mapper, P: Rules>(
    heap: &Heap<N>,
    core: &mut Core<N, M, P>,
    hand: &mut Hand<N>,
    size: u64,
    mode: Mode,
) -> (Made, Option<Block<N>>)
    requires spare { 1 ≤ hand.old.spare }
    requires cap { IsSizeCapped mode N.facts.start.cap size }
    requires unaligned { mode.align ≡ None }
    ensures made { Makes mode size hand.old result.0 result.1 hand.new }
    ensures zeroed { IfSome result.1 (λ block. OfSlot hand.new block.slot (AreZero block.at block.len)) }
{
    outcome(heap.calloc_in(core, hand, 1, size))
}

/// What a request came to, and its block.
pub(crate) fn outcome<N: Name>(given: Result<Block<N>, AllocRefusal>) -> (Made, Option<Block<N>>)
    ensures made { result.0 ≡ made_of given }
    ensures block { result.1 ≡ block_of given }
{
    match given {
        Ok(block) => (Made::Given { at: block.at() }, Some(block)),
        Err(AllocRefusal::NoMemory { excuse }) => (Made::NoMemory { excuse }, None),
        Err(AllocRefusal::TooLarge) => (Made::TooLarge, None),
    }
}

/// What a request with an align came to, and its block.
pub(crate) fn aligned_outcome<N: Name>(
    given: Result<Block<N>, AlignRefusal>,
) -> (Made, Option<Block<N>>)
    ensures made { result.0 ≡ made_of_aligned given }
    ensures block { result.1 ≡ block_of given }
{
    match given {
        Ok(block) => (Made::Given { at: block.at() }, Some(block)),
        Err(AlignRefusal::NoMemory { excuse }) => (Made::NoMemory { excuse }, None),
        Err(AlignRefusal::TooLarge) => (Made::TooLarge, None),
        Err(AlignRefusal::BadAlign) => (Made::BadAlign, None),
    }
}

/// The reply to a resize of the framed block at an address, and the block that stands then.
pub(crate) fn resized_outcome<N: Name>(
    at: u64,
    given: Result<Block<N>, (Block<N>, ResizeRefusal)>,
) -> (Reply, Option<Block<N>>)
    requires whole { damage_told given ≡ None }
    ensures reply { IsReplyTo at given result.0 }
    ensures block { result.1 ≡ Some (left_of given) }
{
    match given {
        Ok(block) => {
            let reply = Reply::Moved {
                old: at,
                at: block.at(),
            };
            (reply, Some(block))
        }
        Err(refused) => {
            let (block, why) = refused;
            let old = Some(at);
            match why {
                ResizeRefusal::NoMemory { excuse } => {
                    (Reply::NoMemory { old, excuse }, Some(block))
                }
                ResizeRefusal::TooLarge => (Reply::TooLarge { old }, Some(block)),
                ResizeRefusal::BadReserved | ResizeRefusal::Overrun => unreachable!(),
            }
        }
    }
}

/// The alignment that a make asks for under the mode.
pub(crate) fn alignment(mode: Mode) -> u64
    ensures { result ≡ align_of mode }
{
    mode.align.unwrap_or(16)
}
