//! Blocks, and the entries of a history.

/// Sizes in bytes from this one on are too large for any request.
pub const LARGE: u64 = 0x7fff_ffff_ffff_efff;

/// A live block: its address, the length in bytes that was asked, and the alignment that was asked.
#[derive(Clone, Copy, Debug, PartialEq, Eq)]
pub struct Extent {
    pub at: u64,
    pub len: u64,
    pub align: u64,
}

/// One call of a heap, as a history has it.
#[derive(Clone, Copy, Debug, PartialEq, Eq)]
pub enum Entry {
    /// A block of `n` bytes was given at an address.
    Give { n: u64, align: u64, at: u64 },
    /// The block at an address was taken back.
    Take { at: u64 },
    /// The block at an address has `n` bytes from now on.
    Resize { at: u64, n: u64 },
    /// A request of `n` bytes was refused, and the excuse is the number of a refused map call.
    NoMemory { n: u64, excuse: u64 },
    /// A request of `count` times `size` bytes is beyond every heap.
    TooLarge { count: u64, size: u64, align: u64 },
    /// The alignment is neither 0 nor a power of two.
    BadAlign { align: u64 },
    /// A pointer was refused, and `name` is the number of the check that it failed.
    Refused { at: u64, name: u32 },
}
