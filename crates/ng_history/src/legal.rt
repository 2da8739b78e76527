//! The tests of legal steps.
ghost use Rattle.std.specs.Prelude.{◌≡◌, ◌+◌, ◌↔◌, ◌≤◌, max, IsTrue};
ghost use Rattle.ng_terms.specs.Heap.{Apart, IsAlignment, IsTooLarge};

use ng_terms::{Extent, LARGE};

/// Whether the number is 0 or a power of two.
pub fn is_alignment(align: u64) -> bool
    ensures { IsTrue result ↔ IsAlignment align }
{
    align & align.wrapping_neg() == align
}

/// Whether so much room is beyond every heap.
pub fn is_too_large(count: u64, size: u64, align: u64) -> bool
    ensures { IsTrue result ↔ IsTooLarge count size align }
{
    if align >= 1 << 35 {
        return true;
    }
    let Some(bytes) = count.checked_mul(size) else {
        return true;
    };
    let Some(room) = bytes.checked_add(align.max(16) - 16) else {
        return true;
    };
    room >= LARGE
}

/// Whether two blocks have no byte in common. A block of 0 bytes counts as one byte.
pub fn is_apart(a: &Extent, b: &Extent) -> bool
    ensures { IsTrue result ↔ Apart a.now b.now }
{
    ends_by(a, b.at) || ends_by(b, a.at)
}

/// Whether a block ends at an address or below it.
pub fn ends_by(block: &Extent, at: u64) -> bool
    ensures { IsTrue result ↔ (block.now.at + max block.now.len 1 ≤ at) }
{
    match block.at.checked_add(block.len.max(1)) {
        Some(end) => end <= at,
        None => false,
    }
}
