//! Plans: what each log does, and which block each end takes.

use crate::items::Items;

/// Where the block comes from that an end or a move takes.
#[derive(Clone, Copy, Debug, PartialEq, Eq)]
pub enum Origin {
    /// From an earlier op of the same log, numbered from 0.
    Own(u32),
    /// From the op, of whichever log, that hands it off under this number.
    Claim(u64),
    /// From nowhere: no block of the name can come any more.
    Skip,
}

/// One op of a log. `to` is the number under which its block is handed off, from 1.
#[derive(Clone, Copy, Debug, PartialEq, Eq)]
pub enum Op {
    /// A block of `size` bytes is made under a name.
    Make {
        name: u64,
        size: u64,
        to: Option<u64>,
    },
    /// The block of a name ends.
    Free {
        name: u64,
        from: Origin,
    },
    /// The block of the old name becomes one of `size` bytes under a new name.
    Move {
        old: u64,
        name: u64,
        from: Origin,
        size: u64,
        to: Option<u64>,
    },
}

/// What is to be done: the ops of each log, the log of each turn in one thread, numbered from 0, and the log that
/// receives each hand-off.
#[derive(Drop)]
pub struct Plan {
    pub logs: Items<Items<Op>>,
    pub order: Items<u32>,
    pub receivers: Items<u32>,
}
