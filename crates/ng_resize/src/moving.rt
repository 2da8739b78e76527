// A block that moves into a slot of its new length.
ghost use Rattle.std.specs.Prelude.{◌≡◌, ℕ, ◌<◌, ◌≤◌, IfErr, IfOk, OnOk};
ghost use Rattle.ng_frame.specs.Inspects.{gap_of};
ghost use Rattle.ng_group.specs.Steps.{GoesOn};
ghost use Rattle.ng_heap.specs.Causes.{HasRefusalCause};
ghost use Rattle.ng_heap.specs.Freeing.{FreesIn};
ghost use Rattle.ng_heap.specs.Making.{SpendsExcuse};
ghost use Rattle.ng_mapper.specs.Mapping.{NotesNone};
ghost use Rattle.ng_resize.specs.Moving.{MakesIn, Moves};
ghost use Rattle.ng_resize.specs.Steps.{HasMoved, WasWhole};
ghost use Rattle.ng_space.specs.Blocks.{HasBlock, OfSlot};
ghost use Rattle.ng_space.specs.Leaving.{Entered, Leaves, LeavesAll};
ghost use Rattle.ng_terms.specs.Heap.{large};
ghost use Rattle.ng_terms.specs.declared.entry.Entry.TheVariants.{NoMemory, Take};
ghost use Rattle.ng_terms.specs.declared.refusal.AllocRefusal.TheVariants as alloc;

use ng_bytes::copy;
use ng_frame::nominal_size;
use ng_group::Core;
use ng_heap::Heap;
use ng_mapper::Mapper;
use ng_policy::Rules;
use ng_space::{Block, Hand, Name};
use ng_terms::AllocRefusal;

/// Moves a block whose frame was found whole to a new one of `n` bytes, with its first `count` bytes. Where there is no
/// memory for the new one the old one comes back, with the excuse.
pub(crate) fn move_to_new<N: Name, M: Mapper, P: Rules>(
    heap: &Heap<N>,
    core: &mut Core<N, M, P>,
    hand: &mut Hand<N>,
    block: Block<N>,
    count: u64,
    n: u64,
) -> Result<Block<N>, (Block<N>, u64)>
    requires spare { 2 ≤ hand.old.spare }
    requires block { HasBlock hand.old block }
    requires whole { (len : ℕ) × OfSlot hand.old block.slot (WasWhole block len) }
    requires some { count ≤ gap_of block }
    requires within { count ≤ n }
    requires small { n < large }
    requires cap { n ≤ N.facts.start.cap }
    ensures moved { IfOk result (λ new. HasMoved n count hand.old block new hand.new) }
    ensures moves { IfOk result (λ new. Moves (MakesIn (P.count_gives core.old.rules) core.old n)
        (λ mid copied. FreesIn (P.keep_gives core.old.rules) M.runs copied block mid core.new) hand.old block count new hand.new) }
    ensures calm { OnOk result (NotesNone (M.refused core.old.mapper) (M.refused core.new.mapper)) }

    ensures left { IfErr result (λ left. left.0 ≡ block) }
    ensures still { IfErr result (λ left. HasBlock hand.new block) }
    ensures cause { IfErr result (λ left. HasRefusalCause (P.count_gives core.old.rules) M.refused core.old core.new n (alloc.NoMemory left.1)) }
    ensures spends { IfErr result (λ left. SpendsExcuse n hand.old left.1 hand.new.view) }
    ensures refused { IfErr result (λ left. Entered hand.old hand.new (NoMemory n left.1)) }
    ensures kept { IfErr result (λ left. LeavesAll hand.old.view hand.new.view) }

    ensures on { GoesOn core.old.seat core.new.seat }
    ensures rules { core.new.rules ≡ core.old.rules }
{
    match heap.malloc_in(core, hand, n) {
        Ok(new) => {
            copy(heap.space(), hand, &block, &new, count);
            free_whole(heap, core, hand, block);
            Ok(new)
        }
        Err(AllocRefusal::NoMemory { excuse }) => Err((block, excuse)),
        Err(AllocRefusal::TooLarge) => unreachable!(),
    }
}

// Frees a block whose frame was found whole, and in whose slot nothing was stored since.
fn free_whole<N: Name, M: Mapper, P: Rules>(
    heap: &Heap<N>,
    core: &mut Core<N, M, P>,
    hand: &mut Hand<N>,
    block: Block<N>,
)
    requires spare { 1 ≤ hand.old.spare }
    requires block { HasBlock hand.old block }
    requires whole { (len : ℕ) × OfSlot hand.old block.slot (WasWhole block len) }
    ensures frees { FreesIn (P.keep_gives core.old.rules) M.runs hand.old block core.old core.new hand.new.view }
    ensures entered { Entered hand.old hand.new (Take block.at) }
    ensures leaves { Leaves block.slot hand.old.view hand.new.view }
    ensures calm { NotesNone (M.refused core.old.mapper) (M.refused core.new.mapper) }
    ensures on { GoesOn core.old.seat core.new.seat }
    ensures rules { core.new.rules ≡ core.old.rules }
{
    match heap.free_in(core, hand, block) {
        Ok(()) => {}
        Err((left, _)) => {
            // The cells of its frame would tell now what they told then.
            let _ = nominal_size(heap.space(), hand, &left);
            unreachable!()
        }
    }
}
