ghost use Rattle.std.specs.Prelude.{◌≡◌, ◌≢◌, ◌<◌, ◌≤◌, ◌*◌, ◌%◌, ◌++◌, ◌∷◌, [], All, AllPairs, Contains, IfOk, drop, slice_get};
ghost use Rattle.ng_meta.specs.Place.{IsMetaPlace};
ghost use Rattle.ng_shelf.specs.Stock.{free_of, metas_of, unused_left};

use crate::free_metas::FreeMetas;
use ng_meta::{METAS, meta_at};
use ng_terms::Host;
use std::alloc::Global;
use std::marker::Model;

/// The metas that have no group: those that were returned, and those of the newest area that were never used. Contracts
/// see both as lists, in the order in which they are taken: the returned ones come first. A meta stands in them once at
/// most.
///
/// Each call but `open` does a fixed number of steps and takes no memory.
#[derive(Drop)]
pub struct MetaStock {
    returned: FreeMetas,
    /// The address of the newest area, or 0.
    area: u64,
    /// The index of the newest area's first unused meta, or 101.
    unused: u32,
}

impl Model for MetaStock {
    ghost use Rattle.ng_shelf.specs.Stock.{Stock};
    ghost use Rattle.ng_shelf.specs.Stocked.{IsStock, unused_of};

    ghost Value = { Stock };

    ghost view = { λ s. record {
      returned = s.returned.metas;
      unused = unused_of s.area s.unused;
      area = s.area;
      pages = s.returned.pages;
    } };

    ghost invariant = { λ s. IsStock s.returned.metas s.area s.unused s.returned.pages };
}

impl MetaStock {
    /// There is no area yet, in a space of so many pages.
    pub fn open(alloc: Global, pages: u32) -> Result<MetaStock, Host>
        requires least { 16 ≤ pages }
        requires greatest { pages ≤ 16384 }
        ensures empty { IfOk result (λ opened. free_of opened ≡ []) }
        ensures area { IfOk result (λ opened. opened.area ≡ 0) }
        ensures pages { IfOk result (λ opened. opened.pages ≡ pages) }
    {
        let returned = FreeMetas::open(alloc, pages)?;
        Ok(MetaStock {
            returned,
            area: 0,
            unused: METAS,
        })
    }

    /// The address of the newest area, or 0.
    pub fn area(&self) -> u64
        ensures { result ≡ self.now.area }
    {
        self.area
    }

    /// Takes the meta that is next: the one returned longest ago, or else the first unused one. `None` where there is
    /// none.
    pub fn take(&mut self) -> Option<u64>
        ensures first { result ≡ slice_get (free_of self.old) 0 }
        ensures rest { free_of self.new ≡ drop 1 (free_of self.old) }
        ensures returned { self.new.returned ≡ drop 1 self.old.returned }
        ensures unused { self.new.unused ≡ unused_left self.old.returned self.old.unused }
        ensures area { self.new.area ≡ self.old.area }
        ensures pages { self.new.pages ≡ self.old.pages }
    {
        if let Some(meta) = self.returned.take() {
            return Some(meta);
        }
        if self.unused == METAS {
            return None;
        }
        let meta = meta_at(self.area, self.unused);
        self.unused += 1;
        Some(meta)
    }

    /// Returns a meta, which isn't among the free ones.
    pub fn put(&mut self, meta: u64)
        requires place { IsMetaPlace meta self.old.pages }
        requires absent { ¬ Contains (free_of self.old) meta }
        ensures appended { self.new ≡ record self.old { returned = self.old.returned ++ meta ∷ [] } }
    {
        self.returned.put(meta);
    }

    /// Adds the metas of a new area, where no other meta is free.
    pub fn add_area(&mut self, area: u64)
        requires empty { free_of self.old ≡ [] }
        requires page { area % 4096 ≡ 0 }
        requires above { 0 < area }
        requires below { area < 4096 * self.old.pages }
        ensures metas { self.new ≡ record self.old { unused = metas_of area; area = area } }
    {
        self.area = area;
        self.unused = 0;
    }

    /// What holds of the metas at all times. It does nothing.
    pub fn stand_once(&self)
        ensures places { All (λ meta. IsMetaPlace meta self.now.pages) (free_of self.now) }
        ensures once { AllPairs (λ meta other. meta ≢ other) (free_of self.now) }
    {
        self.returned.stand_once();
    }
}
