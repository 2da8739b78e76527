// Bytes of a block that are read.
ghost use Rattle.std.specs.Prelude.{◌≡◌, ◌+◌, ◌<◌, ◌≤◌, length};
ghost use Rattle.ng_bytes.specs.Contents.{AreSureBytes};
ghost use Rattle.ng_bytes.specs.Steps.{StaySure};
ghost use Rattle.ng_frame.specs.Inspects.{gap_of};
ghost use Rattle.ng_frame.specs.Judging.{IsSureByte};
ghost use Rattle.ng_header.specs.Bytes.{byte_of};
ghost use Rattle.ng_space.specs.Blocks.{HasBlock, OfSlot};
ghost use Rattle.ng_space.specs.Leaving.{KeepsBook, LeavesAll};

use crate::cell::load_cell;
use ng_space::{Block, Hand, Name, Space};

/// Reads the bytes of a block that stand so many bytes behind its address, as many as `out` has
/// room for. What was read is known of the block from then on.
pub fn read<N: Name>(
    space: &Space<N>,
    hand: &mut Hand<N>,
    block: &Block<N>,
    from: u64,
    out: &mut [u8],
)
    requires block { HasBlock hand.old block.now }
    requires within { from + length out.old ≤ block.now.len }
    ensures length { length out.new ≡ length out.old }
    ensures bytes { OfSlot hand.new block.now.slot (AreSureBytes (block.now.at + from) out.new) }
    ensures leaves { LeavesAll hand.old.view hand.new.view }
    ensures book { KeepsBook hand.old hand.new }
{
    let _len = block.len();
    for i in 0..out.len() {
        out[i] = read_byte(space, hand, block, from + i as u64);
    }
}

// The byte so many bytes behind a block's address.
fn read_byte<N: Name>(space: &Space<N>, hand: &mut Hand<N>, block: &Block<N>, from: u64) -> u8
    requires block { HasBlock hand.old block.now }
    requires from { from < gap_of block.now }
    ensures sure { OfSlot hand.new block.now.slot (IsSureByte (block.now.at + from) result) }
    ensures kept { StaySure hand.old.view hand.new.view }
    ensures has { HasBlock hand.new block.now }
    ensures leaves { LeavesAll hand.old.view hand.new.view }
    ensures book { KeepsBook hand.old hand.new }
{
    let _gap = block.gap();
    let word = load_cell(space, hand, block, block.at() + from / 4 * 4);
    byte(word, from % 4)
}

// One byte of the cell in a word's low half.
fn byte(word: u64, place: u64) -> u8
    requires place { place < 4 }
    ensures value { result ≡ byte_of word place }
{
    (word >> (8 * place) & 0xff) as u8
}
