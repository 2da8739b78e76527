//! Why a heap gives no block.

/// A request for memory was refused, and nothing was given.
#[derive(Clone, Copy, Debug, PartialEq, Eq)]
pub enum AllocRefusal {
    /// The mapper refused a run, and this is the number of its refusal.
    NoMemory { excuse: u64 },
    /// The size is beyond every heap.
    TooLarge,
}
