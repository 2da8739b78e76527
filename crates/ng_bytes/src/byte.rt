// One byte of a block that is stored.
ghost use Rattle.std.specs.Prelude.{◌≡◌, ◌≢◌, ℕ, ◌+◌, ◌<◌};
ghost use Rattle.ng_bytes.specs.Scribbles.{Scribbles, with_byte};
ghost use Rattle.ng_frame.specs.Inspects.{gap_of};
ghost use Rattle.ng_header.specs.Bytes.{byte_of};
ghost use Rattle.ng_space.specs.Blocks.{HasBlock, OfSlot};
ghost use Rattle.ng_space.specs.Leaving.{KeepsBook, KeepsOthers, KeepsRest};
ghost use Rattle.ng_view.specs.Frame.{KnowsByte};

use ng_space::{Block, Hand, Name, Space};

/// Writes one byte so many bytes behind a block's address, below its slot's end.
pub fn store_byte<N: Name>(
    space: &Space<N>,
    hand: &mut Hand<N>,
    block: &Block<N>,
    from: u64,
    byte: u8,
)
    requires block { HasBlock hand.old block.now }
    requires from { from < gap_of block.now }
    ensures view { Scribbles hand.old.view block.now (block.now.at + from) byte hand.new.view }
    ensures written { OfSlot hand.new block.now.slot (KnowsByte (block.now.at + from) byte) }
    ensures bytes { (y b : ℕ) → y ≢ block.now.at + from → OfSlot hand.old block.now.slot (KnowsByte y b) → OfSlot hand.new block.now.slot (KnowsByte y b) }
    ensures has { HasBlock hand.new block.now }
    ensures others { KeepsOthers block.now.slot hand.old.view hand.new.view }
    ensures rest { KeepsRest hand.old.view hand.new.view }
    ensures book { KeepsBook hand.old hand.new }
{
    let _gap = block.gap();
    let cell = block.at() + from / 4 * 4;
    let word = space.load(hand, cell);
    let value = put_byte((word % (1 << 32)) as u32, (from % 4) as u32, byte);
    space.store_in(hand, block, cell, value);
}

// The cell with another byte at one of its four places, the lowest first.
fn put_byte(cell: u32, place: u32, byte: u8) -> u32
    requires place { place < 4 }
    ensures value { result ≡ with_byte cell place byte }
    ensures written { byte_of result place ≡ byte }
    ensures others { (b : ℕ) → b < 4 → b ≢ place → byte_of result b ≡ byte_of cell b }
{
    let unit = 1u32 << (8 * place);
    cell - cell / unit % 256 * unit + u32::from(byte) * unit
}
