//! Replies: what came of each op.

/// How blocks are made: with an alignment, or with bytes of 0.
#[derive(Clone, Copy, Debug, PartialEq, Eq)]
pub struct Mode {
    pub align: Option<u64>,
    pub zero: bool,
}

/// What came of a make.
#[derive(Clone, Copy, Debug, PartialEq, Eq)]
pub enum Made {
    Given { at: u64 },
    NoMemory { excuse: u64 },
    TooLarge,
    BadAlign,
}

/// What came of an op. A refused move names the old block, which stands.
#[derive(Clone, Copy, Debug, PartialEq, Eq)]
pub enum Reply {
    /// A make got a block.
    Given { at: u64 },
    /// A free gave its block back.
    Freed { at: u64 },
    /// A move's block is at this address now.
    Moved { old: u64, at: u64 },
    /// The mapper refused.
    NoMemory { old: Option<u64>, excuse: u64 },
    /// The size is beyond every heap.
    TooLarge { old: Option<u64> },
    /// The mode's alignment is neither 0 nor a power of two.
    BadAlign,
    /// A free without a source.
    Skipped,
    /// A free whose source has no block.
    Absent,
    /// A move without a block, done as a make.
    Fresh { skipped: bool, made: Made },
}
