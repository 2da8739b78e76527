// Where a block's slot lies, and whether its start tells the block's place.
ghost use Rattle.std.specs.Prelude.{◌≡◌, ◌⊎◌, ◌↔◌, ◌<◌, IsTrue};
ghost use Rattle.ng_view.specs.Frame.{IsShift};
ghost use Rattle.ng_space.specs.Blocks.{HasBlock, HasFramed, OfSlot};
ghost use Rattle.ng_space.specs.Leaving.{KeepsBook, LeavesAll};
ghost use Rattle.ng_frame.specs.Located.{IsLocated, TellsDistance};
ghost use Rattle.ng_frame.specs.Puts.{IsWhole};

use crate::offset::MARK;
use ng_class::{slot_start, stride};
use ng_meta::{FLAGS, GROUP_HEAD, MEM, fields_of};
use ng_space::{Block, Hand, Name, Space};

/// Where a block's slot lies, as the meta of its group tells.
#[derive(Clone, Copy, Debug, PartialEq, Eq)]
pub struct Location {
    /// The class of the group, 63 for a block by itself.
    pub class: u32,
    /// The pages of the group's run, 0 for a nested group.
    pub maplen: u32,
    /// The address of the slot's first byte.
    pub start: u64,
}

/// Where a block's slot lies. Two words are loaded, the address and the flags of its group's meta.
pub fn locate<N: Name>(space: &Space<N>, hand: &mut Hand<N>, block: &Block<N>) -> Location
    requires block { HasBlock hand.old block.now }
    ensures located { OfSlot hand.new block.now.slot (IsLocated result block.now) }
    ensures kind { (result.class < 48) ⊎ (result.class ≡ 63) }
    ensures whole { IsWhole block.now.slot }
    ensures leaves { LeavesAll hand.old.view hand.new.view }
    ensures book { KeepsBook hand.old hand.new }
{
    let meta = block.meta();
    let index = block.index();
    let base = space.load(hand, meta + MEM);
    let flags = space.load(hand, meta + FLAGS);
    let fields = fields_of(flags as u32, 0);
    // The slot begins no later than the block.
    let _at = block.at();
    let stride = stride(fields.class, fields.last, fields.maplen);
    Location {
        class: fields.class,
        maplen: fields.maplen as u32,
        start: slot_start(base + GROUP_HEAD, stride, index),
    }
}

/// Whether a block begins at its slot's start, or the header cell there tells how far on it begins.
/// One word is loaded.
pub fn is_marked<N: Name>(
    space: &Space<N>,
    hand: &mut Hand<N>,
    block: &Block<N>,
    start: u64,
) -> bool
    requires block { HasBlock hand.old block.now }
    requires start { start ≡ block.now.slot.start }
    ensures exact { IsTrue result ↔ OfSlot hand.new block.now.slot (λ h. IsShift h block.now.at) }
    ensures framed { HasFramed hand.old block.now → IsTrue result }
    ensures leaves { LeavesAll hand.old.view hand.new.view }
    ensures book { KeepsBook hand.old hand.new }
{
    let at = block.at();
    // A block ends in the space, and so its slot's cells are there.
    let _gap = block.gap();
    // That the start is a whole cell is told by the load itself.
    let header = space.load(hand, start / 4 * 4 - 4);
    at == start || tells_distance(header, (at - start) / 16)
}

// Whether a word is the header cell of a slot whose block begins so many units of 16 bytes further on.
fn tells_distance(header: u64, distance: u64) -> bool
    ensures { IsTrue result ↔ TellsDistance header distance }
{
    header % 256 == 0 && header / 256 % 256 == u64::from(MARK) && header / 65536 == distance % 65536
}
