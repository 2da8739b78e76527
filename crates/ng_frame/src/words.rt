// The words that a block's frame is read from.
ghost use Rattle.std.specs.Prelude.{◌≡◌, ◌%◌, ◌<◌};
ghost use Rattle.ng_header.specs.Bytes.{byte_of};
ghost use Rattle.ng_space.specs.Blocks.{HasBlock, HasFramed, OfSlot};
ghost use Rattle.ng_frame.specs.Judging.{AreSure};
ghost use Rattle.ng_frame.specs.Inspects.{AreKnown, TellLength, looked};
ghost use Rattle.ng_frame.specs.Puts.{IsWhole};
ghost use Rattle.ng_space.specs.Leaving.{KeepsBook, LeavesAll};

use ng_space::{Block, Hand, Name, Space};

/// The words whose low halves are a block's header cell, the last cell before its slot's end, and
/// the cell before that.
#[derive(Clone, Copy)]
pub(crate) struct Words {
    pub(crate) header: u64,
    pub(crate) last: u64,
    pub(crate) fifth: u64,
}

pub(crate) fn read_words<N: Name>(space: &Space<N>, hand: &mut Hand<N>, block: &Block<N>) -> Words
    requires block { HasBlock hand.old block.now }
    ensures view { hand.new.view ≡ looked hand.old.view block.now result }
    ensures whole { block.now.slot.end % 16 ≡ 12 }
    ensures lies { IsWhole block.now.slot }
    ensures known { OfSlot hand.old block.now.slot (AreKnown block.now result) }
    ensures sure { OfSlot hand.new block.now.slot (AreSure block.now result) }
    ensures tells { HasFramed hand.old block.now → TellLength block.now result }
    ensures leaves { LeavesAll hand.old.view hand.new.view }
    ensures book { KeepsBook hand.old hand.new }
{
    let gap = block.gap();
    let at = block.at();
    let header = space.load(hand, at - 4);
    let last = space.load(hand, at + gap - 4);
    let fifth = space.load(hand, at + gap - 8);
    Words {
        header,
        last,
        fifth,
    }
}

// One byte of the cell in a word's low half.
pub(crate) fn byte(word: u64, place: u64) -> u8
    requires place { place < 4 }
    ensures value { result ≡ byte_of word place }
{
    (word >> (8 * place) & 0xff) as u8
}
