ghost use Rattle.std.specs.Prelude.{◌≡◌, ◌≢◌, ◌≤◌, ◌↔◌, ◌++◌, ◌∷◌, [], All, AllPairs, Contains, IfOk, IsTrue, drop, slice_get};
ghost use Rattle.ng_meta.specs.Place.{IsMetaPlace};
ghost use Rattle.ng_shelf.specs.FreeMetas.{FreeList};

use ng_lists::{address_of, index_of, meta_zeros};
use ng_meta::is_meta_place;
use ng_terms::Host;
use std::alloc::Global;
use std::marker::Model;

/// The metas that were returned and not taken since: contracts see the list of their addresses, the one returned
/// longest ago first. A meta stands in it once at most.
///
/// Each call but `open` does a fixed number of steps and takes no memory. `open` takes 404 bytes for each page of the
/// space, 4 for each of its 101 metas.
#[derive(Drop)]
pub struct FreeMetas {
    /// The pages of the space.
    pages: u32,
    /// For each meta in the list, the index of the next, and of the last one its own; 0 for the others.
    after: Vec<u32>,
    /// The index of the first meta, or of one that isn't in the list where it is empty.
    first: u32,
    /// The index of the last meta, where there is one.
    last: u32,
}

impl Model for FreeMetas {
    ghost use Rattle.ng_shelf.specs.FreeMetas.{FreeList};
    ghost use Rattle.ng_shelf.specs.Queue.{IsQueue, list_of};

    ghost Value = { FreeList };

    ghost view = { λ f. list_of f.after.items f.first f.pages };

    ghost invariant = { λ f. IsQueue f.after.items f.first f.last f.pages };
}

impl FreeMetas {
    /// No meta is free, in a space of so many pages.
    pub fn open(alloc: Global, pages: u32) -> Result<FreeMetas, Host>
        requires least { 16 ≤ pages }
        requires greatest { pages ≤ 16384 }
        ensures empty { IfOk result (λ opened. opened.metas ≡ []) }
        ensures pages { IfOk result (λ opened. opened.pages ≡ pages) }
    {
        let after = meta_zeros(alloc, pages)?;
        Ok(FreeMetas {
            pages,
            after,
            first: 0,
            last: 0,
        })
    }

    /// Whether a number is the address of a meta in the list.
    pub fn has(&self, meta: u64) -> bool
        ensures member { IsTrue result ↔ Contains self.now.metas meta }
    {
        is_meta_place(meta, self.pages) && self.after[index_of(meta) as usize] != 0
    }

    /// Puts a meta that isn't in the list at its end.
    pub fn put(&mut self, meta: u64)
        requires place { IsMetaPlace meta self.old.pages }
        requires absent { ¬ Contains self.old.metas meta }
        ensures appended { self.new ≡ record self.old { metas = self.old.metas ++ meta ∷ [] } }
    {
        let is_empty = self.after[self.first as usize] == 0;
        let index = index_of(meta);
        if is_empty {
            self.first = index;
        } else {
            self.after[self.last as usize] = index;
        }
        self.after[index as usize] = index;
        self.last = index;
    }

    /// Takes the meta out that was put in longest ago, or `None` where the list is empty.
    pub fn take(&mut self) -> Option<u64>
        ensures first { result ≡ slice_get self.old.metas 0 }
        ensures rest { self.new ≡ record self.old { metas = drop 1 self.old.metas } }
    {
        let index = self.first;
        let next = self.after[index as usize];
        if next == 0 {
            return None;
        }
        self.after[index as usize] = 0;
        self.first = next;
        Some(address_of(index))
    }

    /// What holds of the list at all times. It does nothing.
    pub fn stand_once(&self)
        ensures places { All (λ meta. IsMetaPlace meta self.now.pages) self.now.metas }
        ensures once { AllPairs (λ meta other. meta ≢ other) self.now.metas }
    {
        let _ = &self.pages;
    }
}
