// Pointers that are probed, and blocks whose cells are read and written byte by byte.
ghost use Rattle.std.specs.Prelude.{◌≡◌, ◌≢◌, ℕ, ◌+◌, ◌<◌, ◌≤◌, Ok, length};
ghost use Rattle.ng_bytes.specs.Contents.{AreKnownBytes, AreSureBytes};
ghost use Rattle.ng_bytes.specs.Scribbles.{Scribbles};
ghost use Rattle.ng_check.specs.Answers.{Checks, Judges};
ghost use Rattle.ng_frame.specs.Contents.{KeepsAround};
ghost use Rattle.ng_frame.specs.Inspects.{Inspects, gap_of};
ghost use Rattle.ng_frame.specs.Judging.{IsJudged, damage_in, verdict_of};
ghost use Rattle.ng_space.specs.Blocks.{BlockToken, HasBlock, HasFramed, OfSlot};
ghost use Rattle.ng_space.specs.Leaving.{KeepsBook, KeepsOthers, KeepsRest, Leaves, LeavesAll, Stays};
ghost use Rattle.ng_view.specs.Frame.{KnowsByte};

use crate::heap::Heap;
use ng_bytes::{read, store_byte, write};
use ng_check::{BadPointer, Found, probe};
use ng_frame::{Damage, nominal_size};
use ng_space::{Block, Hand, Name};

impl<N: Name> Heap<N> {
    /// Checks a pointer: the block that it leads to, or the first check that fails. It takes no lock, and neither stores nor
    /// enters anything.
    pub fn look(&self, hand: &mut Hand<N>, addr: u64) -> Result<Found, BadPointer>
        ensures checks { Checks N.facts.start.pages N.facts.start.secret addr hand.old.view result hand.new.view }
        ensures own { (block : BlockToken) → HasBlock hand.old block → block.at ≡ addr → Judges block result hand.new }
        ensures leaves { LeavesAll hand.old.view hand.new.view }
        ensures book { KeepsBook hand.old hand.new }
    {
        probe(&self.space, hand, self.space.start().secret, addr)
    }

    /// The length of a block in bytes, as its frame's cells tell it, or what is wrong with them. Nothing is stored or entered.
    pub fn usable_size(&self, hand: &mut Hand<N>, block: &Block<N>) -> Result<u64, Damage>
        requires block { HasBlock hand.old block.now }
        ensures cause { Inspects hand.old.view block.now (damage_in result) hand.new.view }
        ensures judged { OfSlot hand.new block.now.slot (λ h. IsJudged h block.now.at (gap_of block.now) (verdict_of result)) }
        ensures framed { HasFramed hand.old block.now → result ≡ Ok block.now.len }
        ensures leaves { LeavesAll hand.old.view hand.new.view }
        ensures book { KeepsBook hand.old hand.new }
    {
        nominal_size(&self.space, hand, block)
    }

    /// Reads the bytes of a block from so many bytes behind its address on.
    pub fn read(&self, hand: &mut Hand<N>, block: &Block<N>, from: u64, out: &mut [u8])
        requires block { HasBlock hand.old block.now }
        requires within { from + length out.old ≤ block.now.len }
        ensures length { length out.new ≡ length out.old }
        ensures bytes { OfSlot hand.new block.now.slot (AreSureBytes (block.now.at + from) out.new) }
        ensures leaves { LeavesAll hand.old.view hand.new.view }
        ensures book { KeepsBook hand.old hand.new }
    {
        read(&self.space, hand, block, from, out)
    }

    /// Writes bytes into a block, from so many bytes behind its address on.
    pub fn write(&self, hand: &mut Hand<N>, block: &Block<N>, from: u64, bytes: &[u8])
        requires block { HasBlock hand.old block.now }
        requires within { from + length bytes.now ≤ block.now.len }
        ensures written { OfSlot hand.new block.now.slot (AreKnownBytes (block.now.at + from) bytes.now) }
        ensures around { Stays block.now.slot.meta block.now.slot.index hand.old.view hand.new.view
            (KeepsAround (block.now.at + from) (block.now.at + from + length bytes.now)) }
        ensures has { HasBlock hand.new block.now }
        ensures framed { HasFramed hand.old block.now → HasFramed hand.new block.now }
        ensures leaves { Leaves block.now.slot hand.old.view hand.new.view }
        ensures book { KeepsBook hand.old hand.new }
    {
        write(&self.space, hand, block, from, bytes)
    }

    /// Writes one byte so many bytes behind a block's address, below its slot's end.
    pub fn scribble(&self, hand: &mut Hand<N>, block: &Block<N>, from: u64, byte: u8)
        requires block { HasBlock hand.old block.now }
        requires from { from < gap_of block.now }
        ensures view { Scribbles hand.old.view block.now (block.now.at + from) byte hand.new.view }
        ensures written { OfSlot hand.new block.now.slot (KnowsByte (block.now.at + from) byte) }
        ensures bytes { (y b : ℕ) → y ≢ block.now.at + from → OfSlot hand.old block.now.slot (KnowsByte y b) → OfSlot hand.new block.now.slot (KnowsByte y b) }
        ensures has { HasBlock hand.new block.now }
        ensures others { KeepsOthers block.now.slot hand.old.view hand.new.view }
        ensures rest { KeepsRest hand.old.view hand.new.view }
        ensures book { KeepsBook hand.old hand.new }
    {
        store_byte(&self.space, hand, block, from, byte)
    }
}
