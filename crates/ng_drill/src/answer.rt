//! What came of each command of a script.

use ng_heap::{Damage, PointerFault};

/// What came of a command: one variant for each of the four.
#[derive(Clone, Copy, Debug, PartialEq, Eq)]
pub enum Answer {
    Malloc(Malloced),
    Free(Freed),
    Write(Written),
    Usable(Measured),
}

/// What came of an `m`.
#[derive(Clone, Copy, Debug, PartialEq, Eq)]
pub enum Malloced {
    /// A block was given at this address.
    Given { at: u64 },
    /// The mapper refused a run, and this is the number of its refusal.
    NoMemory { excuse: u64 },
    /// The size is beyond every heap.
    TooLarge,
}

/// What came of an `f`.
#[derive(Clone, Copy, Debug, PartialEq, Eq)]
pub enum Freed {
    /// The block was freed.
    Done,
    /// The address was refused.
    Refused(AtFault),
    /// The place's name has no address.
    Absent,
}

/// Why an address is not freed.
#[derive(Clone, Copy, Debug, PartialEq, Eq)]
pub enum AtFault {
    /// It failed a check.
    Bad(PointerFault),
    /// It passed each check, and no block that stands has it.
    NotHeld,
}

/// What came of a `w`.
#[derive(Clone, Copy, Debug, PartialEq, Eq)]
pub enum Written {
    /// The byte was written.
    Done,
    /// The byte lies behind the end of the block's slot.
    Range,
    /// No block stands at the name's address, or it has none.
    Absent,
}

/// What came of a `u`.
#[derive(Clone, Copy, Debug, PartialEq, Eq)]
pub enum Measured {
    /// The block has so many bytes, as its cells tell.
    Bytes(u64),
    /// Its cells are damaged.
    Damaged(Damage),
    /// No block stands at the name's address, or it has none.
    Absent,
}
