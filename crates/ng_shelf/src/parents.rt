ghost use Rattle.std.specs.Prelude.{◌≡◌, ◌≢◌, ◌<◌, ◌≤◌, ℕ, IfOk, IsSome, None, Some};
ghost use Rattle.ng_meta.specs.Place.{IsMetaPlace};
ghost use Rattle.ng_shelf.specs.Parents.{IsSameBut, parent_of};

use ng_lists::{address_of, index_of, meta_zero_bytes, meta_zeros};
use ng_terms::Host;
use std::alloc::Global;
use std::marker::Model;

/// For each meta of a nested group, the slot that carries the group: its group's meta, and its index there. Contracts
/// see it by the metas' numbers, and read it by `parent_of`.
///
/// Each call but `open` does a fixed number of steps and takes no memory. `open` takes 505 bytes for each page of the
/// space, 5 for each of its 101 metas.
#[derive(Drop)]
pub struct Parents {
    /// The pages of the space.
    pages: u32,
    /// For each meta, the index of the meta of the carrying group, or 0 where none was set.
    metas: Vec<u32>,
    /// For each meta, the index of the carrying slot in its group.
    slots: Vec<u8>,
}

impl Model for Parents {
    ghost use Rattle.ng_shelf.specs.Parents.{ParentTable};
    ghost use Rattle.ng_shelf.specs.Carriers.{AreCarriers, table_of};

    ghost Value = { ParentTable };

    ghost view = { λ p. table_of p.metas.items p.slots.items p.pages };

    ghost invariant = { λ p. AreCarriers p.metas.items p.slots.items p.pages };
}

impl Parents {
    /// No meta has a parent, in a space of so many pages.
    pub fn open(alloc: Global, pages: u32) -> Result<Parents, Host>
        requires least { 16 ≤ pages }
        requires greatest { pages ≤ 16384 }
        ensures none { IfOk result (λ opened. (meta : ℕ) → parent_of opened meta ≡ None) }
        ensures pages { IfOk result (λ opened. opened.pages ≡ pages) }
    {
        let metas = meta_zeros(alloc, pages)?;
        let slots = meta_zero_bytes(alloc, pages)?;
        Ok(Parents {
            pages,
            metas,
            slots,
        })
    }

    /// Sets the slot that carries a meta's group, in place of any that was set before: the slot `index`, below 32, of
    /// the group of the meta `parent`.
    pub fn set(&mut self, meta: u64, parent: u64, index: u32)
        requires place { IsMetaPlace meta self.old.pages }
        requires parent { IsMetaPlace parent self.old.pages }
        requires index { index < 32 }
        ensures set { parent_of self.new meta ≡ Some (parent, index) }
        ensures others { IsSameBut meta self.old self.new }
        ensures pages { self.new.pages ≡ self.old.pages }
    {
        let metas = &mut self.metas;
        let child = index_of(meta) as usize;
        metas[child] = index_of(parent);
        self.slots[child] = index as u8;
    }

    /// The meta and the index of the slot that carries a meta's group.
    pub fn of(&self, meta: u64) -> (u64, u32)
        requires place { IsMetaPlace meta self.now.pages }
        requires set { IsSome (parent_of self.now meta) }
        ensures { parent_of self.now meta ≡ Some result }
    {
        let metas = &self.metas;
        let child = index_of(meta) as usize;
        (address_of(metas[child]), u32::from(self.slots[child]))
    }
}
