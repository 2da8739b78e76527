ghost use Rattle.std.specs.Prelude.{◌≡◌, ◌<◌, ◌++◌, [], ℕ, List, length, slice_index, IfOk, OnOk, Some};
ghost use Rattle.std.specs.Option.{option_map};
ghost use Rattle.ng_plan.specs.Blocks.{AreQueues};
ghost use Rattle.ng_plan.specs.Tables.{Rises, name_at};
ghost use Rattle.ng_plan.specs.Turns.{Posted, earliest, posted_by, without};

use crate::step::Place;
use std::alloc::{AllocError, Global};
use std::collections::VecDeque;

/// The posted blocks that no claim took: a queue for each name, by the name's number.
#[derive(Drop)]
pub struct Queues {
    each: Vec<VecDeque<Place>>,
}

impl Queues {
    /// Empty queues for this many names.
    pub fn new(alloc: Global, names: usize) -> Result<Queues, AllocError>
        ensures len { IfOk result (λ queues. length queues.each.items ≡ names) }
        ensures empty { IfOk result (λ queues. (names : List ℕ)
            → length names ≡ length queues.each.items
            → AreQueues names queues.each.items []) }
    {
        let mut each = Vec::with_capacity(alloc, names)?;
        for _ in 0..names {
            each.push(VecDeque::new(alloc))?;
        }
        Ok(Queues { each })
    }

    /// Posts a block under the name of this number, if one is given.
    pub fn post(&mut self, number: Option<u32>, place: Place) -> Result<(), AllocError>
        requires { (at : ℕ) → number ≡ Some at → at < length self.old.each.items }
        ensures same { OnOk result (length self.new.each.items ≡ length self.old.each.items) }
        ensures posted { OnOk result ((names : List ℕ) (blocks : List Posted) → Rises names
            → length names ≡ length self.old.each.items → AreQueues names self.old.each.items blocks
            → AreQueues names self.new.each.items (blocks ++ posted_by place
            (name_at names number))) }
    {
        match number {
            Some(at) => self.put(at as usize, place),
            None => Ok(()),
        }
    }

    /// Posts a block under the name of this number.
    #[inline(never)]
    fn put(&mut self, at: usize, place: Place) -> Result<(), AllocError>
        requires { at < length self.old.each.items }
        ensures same { OnOk result (length self.new.each.items ≡ length self.old.each.items) }
        ensures posted { OnOk result ((names : List ℕ) (blocks : List Posted) → Rises names
            → length names ≡ length self.old.each.items → AreQueues names self.old.each.items blocks
            → AreQueues names self.new.each.items (blocks ++ posted_by place
            (Some (slice_index names at)))) }
    {
        match self.each[at].push_back(place) {
            Ok(()) => Ok(()),
            Err(_) => Err(AllocError),
        }
    }

    /// Takes the earliest block under the name of this number.
    pub fn take(&mut self, at: usize) -> Option<Place>
        requires { at < length self.old.each.items }
        ensures same { length self.new.each.items ≡ length self.old.each.items }
        ensures earliest { (names : List ℕ) (blocks : List Posted) → Rises names
            → length names ≡ length self.old.each.items → AreQueues names self.old.each.items blocks
            → result ≡ option_map (λ block. block.maker) (earliest (slice_index names at) blocks) }
        ensures left { (names : List ℕ) (blocks : List Posted) → Rises names
            → length names ≡ length self.old.each.items → AreQueues names self.old.each.items blocks
            → AreQueues names self.new.each.items (without (slice_index names at) blocks) }
    {
        self.each[at].pop_front()
    }
}
