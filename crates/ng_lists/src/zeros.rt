//! Tables of zeros for the metas of a space. The metas of a page at a time are copied by wide stores, which takes fewer
//! instructions than a fill.
ghost use Rattle.std.specs.Prelude.{◌≡◌, ◌*◌, replicate, IfOk};

use ng_terms::Host;
use std::alloc::Global;

/// A zero of four bytes for each meta of so many pages.
pub fn meta_zeros(alloc: Global, pages: u32) -> Result<Vec<u32>, Host>
    ensures { IfOk result (λ zeros. zeros.items ≡ replicate (101 * pages) 0) }
{
    let page = [0u32; 101];
    match page.as_slice().repeat(alloc, pages as usize) {
        Ok(zeros) => Ok(zeros),
        Err(_) => Err(Host),
    }
}

/// A zero of one byte for each meta of so many pages.
pub fn meta_zero_bytes(alloc: Global, pages: u32) -> Result<Vec<u8>, Host>
    ensures { IfOk result (λ zeros. zeros.items ≡ replicate (101 * pages) 0) }
{
    let page = [0u8; 101];
    match page.as_slice().repeat(alloc, pages as usize) {
        Ok(zeros) => Ok(zeros),
        Err(_) => Err(Host),
    }
}
