ghost use Rattle.std.specs.Prelude.{◌≡◌, None, Ok};
ghost use Rattle.ng_space.specs.Blocks.{HasBlock, HasFramed, OfSlot};
ghost use Rattle.ng_space.specs.Leaving.{KeepsBook, LeavesAll};
ghost use Rattle.ng_frame.specs.Inspects.{Inspects, gap_of, number_of};
ghost use Rattle.ng_frame.specs.Judging.{IsJudged, IsKnownDamage, IsKnownVerdict, damage_in, verdict_of};

use crate::words::{byte, read_words};
use ng_header::{nominal, reserved_of};
use ng_space::{Block, Hand, Name, Space};

/// What is wrong with the frame of a block.
#[derive(Clone, Copy, Debug, PartialEq, Eq)]
pub enum Damage {
    /// The header and the last bytes of the slot tell no reserved number, or one above the gap.
    BadReserved,
    /// The first byte behind the block isn't 0.
    Overrun,
}

impl Damage {
    /// Its number in the entry of a refused pointer.
    pub fn number(self) -> u32
        ensures value { result ≡ number_of self }
    {
        match self {
            Damage::BadReserved => 12,
            Damage::Overrun => 13,
        }
    }
}

/// The damage of a block's frame, by its cells. A frame that the hand knows has none.
pub fn find_damage<N: Name>(
    space: &Space<N>,
    hand: &mut Hand<N>,
    block: &Block<N>,
) -> Option<Damage>
    requires block { HasBlock hand.old block.now }
    ensures cause { Inspects hand.old.view block.now result hand.new.view }
    ensures framed { HasFramed hand.old block.now → result ≡ None }
    ensures known { IsKnownDamage hand.old block.now result }

    // What the hand has stays.
    ensures leaves { LeavesAll hand.old.view hand.new.view }
    ensures book { KeepsBook hand.old hand.new }
{
    nominal_size(space, hand, block).err()
}

/// The length of a block as its frame tells it, by its cells, or the frame's damage. Nothing is
/// stored.
pub fn nominal_size<N: Name>(
    space: &Space<N>,
    hand: &mut Hand<N>,
    block: &Block<N>,
) -> Result<u64, Damage>
    requires block { HasBlock hand.old block.now }
    ensures cause { Inspects hand.old.view block.now (damage_in result) hand.new.view }
    ensures framed { HasFramed hand.old block.now → result ≡ Ok block.now.len }

    // The verdict is by what the hand knows of the slot then.
    ensures judged { OfSlot hand.new block.now.slot (λ h. IsJudged h block.now.at (gap_of block.now) (verdict_of result)) }

    // One that was known before is the same.
    ensures known { IsKnownVerdict hand.old block.now (verdict_of result) }

    ensures leaves { LeavesAll hand.old.view hand.new.view }
    ensures book { KeepsBook hand.old hand.new }
{
    let at = block.at();
    let gap = block.gap();
    let words = read_words(space, hand, block);
    let field = (words.header / 8192 % 8) as u32;
    let number = (words.last % (1 << 32)) as u32;
    let Ok(reserved) = reserved_of(field, number, byte(words.fifth, 3), gap) else {
        return Err(Damage::BadReserved);
    };
    let first = at + gap - reserved;
    let mark = byte(space.load(hand, 4 * (first / 4)), first % 4);
    // The byte at the end of a slot is 0, whatever its block was used for.
    match nominal(gap, reserved, mark, 0) {
        Ok(len) => Ok(len),
        Err(_) => Err(Damage::Overrun),
    }
}
