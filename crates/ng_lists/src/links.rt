//! Numbers that are linked to their neighbours in both directions.
ghost use Rattle.std.specs.Prelude.{◌≡◌, ◌<◌, ◌*◌, ◌^◌, length, replicate, slice_set, IfOk};

use crate::zeros::meta_zeros;
use ng_terms::Host;
use std::alloc::Global;

/// For each index, the index after it and the index before it.
#[derive(Drop)]
pub struct Links {
    pub next: Vec<u32>,
    pub prev: Vec<u32>,
}

impl Links {
    /// Links from each meta of so many pages to 0.
    pub fn open(alloc: Global, pages: u32) -> Result<Links, Host>
        ensures next { IfOk result (λ links. links.next.items ≡ replicate (101 * pages) 0) }
        ensures prev { IfOk result (λ links. links.prev.items ≡ replicate (101 * pages) 0) }
    {
        let next = meta_zeros(alloc, pages)?;
        let prev = meta_zeros(alloc, pages)?;
        Ok(Links { next, prev })
    }

    /// Links one index to another, which comes after it.
    pub fn join(&mut self, from: u32, to: u32)
        requires from { from < length self.old.next.items }
        requires to { to < length self.old.prev.items }
        ensures next { self.new.next.items ≡ slice_set self.old.next.items from to }
        ensures prev { self.new.prev.items ≡ slice_set self.old.prev.items to from }
    {
        self.next[from as usize] = to;
        self.prev[to as usize] = from;
    }
}
