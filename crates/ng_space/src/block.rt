ghost use Rattle.std.specs.Prelude.{◌≡◌, ◌+◌, ◌-◌, ◌*◌, ◌%◌, ◌<◌, ◌≤◌};
ghost use Rattle.ng_meta.specs.Place.{IsMetaPlace};

use crate::name::Name;
use crate::slot::Slot;
use std::marker::Model;

/// A live block in a hand. It is spent by the call that it is moved into.
pub struct Block<N: Name> {
    pub(crate) slot: Slot<N>,
    pub(crate) at: u64,
    pub(crate) len: u64,
    pub(crate) align: u64,
}

impl<N: Name> Model for Block<N> {
    ghost use Rattle.ng_space.specs.Blocks.{BlockToken};

    ghost Value = { BlockToken };

    ghost use Rattle.ng_space.specs.Blocks.{IsBlockToken};

    ghost view = { λ block. record {
      slot = block.slot;
      at = block.at;
      len = block.len;
      align = block.align;
    } };

    ghost invariant = { λ block. IsBlockToken (record {
      slot = block.slot;
      at = block.at;
      len = block.len;
      align = block.align;
    }) };
}

impl<N: Name> Block<N> {
    /// The block's address, a multiple of 16.
    pub fn at(&self) -> u64
        ensures at { result ≡ self.now.at }
        ensures whole { result % 16 ≡ 0 }
        ensures from { self.now.slot.start ≤ result }
    {
        self.at
    }

    /// Its length in bytes, as it was asked for.
    pub fn len(&self) -> u64
        ensures len { result ≡ self.now.len }
        ensures within { self.now.at + result ≤ self.now.slot.end }
    {
        self.len
    }

    /// How many bytes there are from its address to the end of its slot.
    pub fn gap(&self) -> u64
        ensures gap { self.now.at + result ≡ self.now.slot.end }
        ensures enough { self.now.len ≤ result }
        ensures below { self.now.slot.end + 4 ≤ 4096 * N.facts.start.pages }
    {
        self.slot.end() - self.at
    }

    /// The address of the meta of its slot's group.
    pub fn meta(&self) -> u64
        ensures meta { result ≡ self.now.slot.meta }
        ensures place { IsMetaPlace result N.facts.start.pages }
    {
        self.slot.meta()
    }

    /// Its slot's place in its group.
    pub fn index(&self) -> u32
        ensures index { result ≡ self.now.slot.index }
        ensures few { result < 32 }
    {
        self.slot.index()
    }
}
