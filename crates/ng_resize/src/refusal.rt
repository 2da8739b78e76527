// Why a block isn't resized, or not given.

/// Why a block keeps its length.
#[derive(Clone, Copy, Debug, PartialEq, Eq)]
pub enum ResizeRefusal {
    /// The mapper refused a run, and this is the number of its refusal.
    NoMemory { excuse: u64 },
    /// The size is beyond every heap.
    TooLarge,
    /// The block's header and the last bytes of its slot tell no reserved number, or one above the gap.
    BadReserved,
    /// The first byte behind the block isn't 0.
    Overrun,
}

/// Why no block with an align is given.
#[derive(Clone, Copy, Debug, PartialEq, Eq)]
pub enum AlignRefusal {
    /// The align is neither 0 nor a power of two.
    BadAlign,
    /// The size, or the align, is beyond every heap.
    TooLarge,
    /// The mapper refused a run, and this is the number of its refusal.
    NoMemory { excuse: u64 },
}
