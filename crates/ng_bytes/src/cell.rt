// The cells of blocks, each of four bytes: they are loaded, and some of their bytes stored.
ghost use Rattle.std.specs.Prelude.{◌≡◌, ℕ, ◌+◌, ◌%◌, ◌<◌, ◌≤◌};
ghost use Rattle.ng_bytes.specs.Steps.{Changes, OthersStaySure, StaySure};
ghost use Rattle.ng_frame.specs.Judging.{IsSureByte};
ghost use Rattle.ng_header.specs.Bytes.{byte_of};
ghost use Rattle.ng_space.specs.Blocks.{BlockToken, HasBlock, OfSlot};
ghost use Rattle.ng_space.specs.Leaving.{KeepsBook, LeavesAll};
ghost use Rattle.ng_view.specs.Frame.{KnowsByte};

use ng_space::{Block, Hand, Name, Space};

// Loads a cell of a block, from its address up to the end of its slot.
pub(crate) fn load_cell<N: Name>(
    space: &Space<N>,
    hand: &mut Hand<N>,
    block: &Block<N>,
    addr: u64,
) -> u64
    requires block { HasBlock hand.old block.now }
    requires cell { addr % 4 ≡ 0 }
    requires from { block.now.at ≤ addr }
    requires below { addr < block.now.slot.end }
    ensures sure { (j : ℕ) → j < 4 → OfSlot hand.new block.now.slot (IsSureByte (addr + j) (byte_of result j)) }
    ensures kept { StaySure hand.old.view hand.new.view }
    ensures blocks { (other : BlockToken) → HasBlock hand.old other → HasBlock hand.new other }
    ensures leaves { LeavesAll hand.old.view hand.new.view }
    ensures book { KeepsBook hand.old hand.new }
{
    let _at = block.at();
    let _gap = block.gap();
    space.load(hand, addr)
}

// Stores the lowest bytes of a cell of a block, so many of them, and keeps those above. A cell that
// has them already isn't stored.
pub(crate) fn store_low<N: Name>(
    space: &Space<N>,
    hand: &mut Hand<N>,
    block: &Block<N>,
    addr: u64,
    bytes: u32,
    count: u64,
)
    requires block { HasBlock hand.old block.now }
    requires cell { addr % 4 ≡ 0 }
    requires from { block.now.at ≤ addr }
    requires within { addr + count ≤ block.now.at + block.now.len }
    requires some { 1 ≤ count }
    requires few { count ≤ 4 }
    ensures stored { (j : ℕ) → j < count → OfSlot hand.new block.now.slot (KnowsByte (addr + j) (byte_of bytes j)) }
    ensures changes { Changes addr (addr + count) block.now hand.old hand.new }
    ensures others { OthersStaySure block.now.slot hand.old.view hand.new.view }
{
    let _at = block.at();
    let _gap = block.gap();
    let cell = (space.load(hand, addr) % (1 << 32)) as u32;
    let value = with_low(cell, bytes, count);
    if value != cell {
        space.store_in(hand, block, addr, value);
    }
}

// The cell with so many of its lowest bytes replaced.
fn with_low(cell: u32, bytes: u32, count: u64) -> u32
    requires some { 1 ≤ count }
    requires few { count ≤ 4 }
    ensures low { (j : ℕ) → j < count → byte_of result j ≡ byte_of bytes j }
    ensures high { (j : ℕ) → count ≤ j → j < 4 → byte_of result j ≡ byte_of cell j }
{
    let unit = 1u64 << (8 * count);
    (u64::from(cell) / unit * unit + u64::from(bytes) % unit) as u32
}
