ghost use Rattle.std.specs.Prelude.{◌≡◌, ◌<◌, ◌↔◌, ◌∷◌, ◌++◌, [], length, List, ℕ, IsTrue, IfOk};
ghost use Rattle.std.specs.Bool.{OnFalse, OnTrue};

use arrayvec::ArrayVec;
use ng_terms::{Host, Items};
use std::alloc::Global;
use std::marker::Model;

/// The most numbers that a list has.
const MOST: usize = 64;

/// A list of at most 64 numbers, which takes no memory.
#[derive(Drop)]
pub struct Numbers {
    items: ArrayVec<u64, MOST>,
}

impl Model for Numbers {
    ghost Value = { List ℕ };

    ghost view = { λ s. s.items.items };
}

impl Numbers {
    /// The empty list.
    pub fn new() -> Numbers
        ensures { result ≡ [] }
    {
        Numbers {
            items: ArrayVec::new(),
        }
    }

    /// Appends a number, where there is room for it.
    pub fn push(&mut self, number: u64) -> bool
        ensures room { IsTrue result ↔ (length self.old < 64) }
        ensures pushed { OnTrue result (self.new ≡ self.old ++ number ∷ []) }
        ensures kept { OnFalse result (self.new ≡ self.old) }
    {
        self.items.try_push(number).is_ok()
    }

    /// The numbers in memory of their own.
    pub fn into_items(self, alloc: Global) -> Result<Items<u64>, Host>
        ensures { IfOk result (λ items. items ≡ self) }
    {
        match self.items.as_slice().to_vec(alloc) {
            Ok(items) => Ok(Items::from_vec(items)),
            Err(_) => Err(Host),
        }
    }
}
