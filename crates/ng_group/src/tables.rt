ghost use Rattle.std.specs.Prelude.{◌≤◌, IfOk};
ghost use Rattle.ng_group.specs.Opening.{AreEmpty};

use ng_lists::Rings;
use ng_shelf::{MetaStock, Parents};
use ng_terms::Host;
use std::alloc::Global;
use std::marker::Model;

/// The memory of a core's tables, for a heap that has no name yet.
#[derive(Drop)]
pub struct Tables {
    pub(crate) rings: Rings,
    pub(crate) stock: MetaStock,
    pub(crate) parents: Parents,
}

impl Model for Tables {
    ghost use Rattle.ng_group.specs.Opening.{Empty};

    ghost Value = { Empty };

    ghost view = { λ tables. record { rings = tables.rings; stock = tables.stock; parents = tables.parents } };
}

impl Tables {
    /// Empty tables for a space of so many pages. All memory that the core needs is taken here.
    pub fn new(alloc: Global, pages: u32) -> Result<Tables, Host>
        requires least { 16 ≤ pages }
        requires greatest { pages ≤ 16384 }
        ensures { IfOk result (AreEmpty pages) }
    {
        Ok(Tables {
            rings: Rings::open(alloc, pages)?,
            stock: MetaStock::open(alloc, pages)?,
            parents: Parents::open(alloc, pages)?,
        })
    }
}
