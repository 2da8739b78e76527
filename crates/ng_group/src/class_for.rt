// The class that serves a request.
ghost use Rattle.std.specs.Prelude.{◌≡◌, ◌<◌};
ghost use Rattle.ng_group.specs.ClassFor.{IsClassFor, IsLooked, IsReady};
ghost use Rattle.ng_group.specs.Steps.{Came};
ghost use Rattle.ng_lists.specs.Rings.{ring_of};
ghost use Rattle.ng_serve.specs.Reads.{Notes};

use crate::heap_core::Core;
use ng_class::class_of;
use ng_lists::CLASSES;
use ng_mapper::Mapper;
use ng_meta::{AVAIL, FREED, mask_of};
use ng_policy::{Rules, coarse};
use ng_space::{Name, Space};

impl<N: Name, M: Mapper, P: Rules> Core<N, M, P> {
    /// The class that serves a request of so many bytes: the least one with room for them and 4, or the next, where no
    /// group of the class is live and the next has few slots.
    pub fn class_for(&mut self, space: &Space<N>, bytes: u64) -> u32
        requires bytes { bytes < 131052 }
        ensures class { IsClassFor self.old self.new bytes result }
        ensures known { result < 48 }
        ensures looked { IsLooked self.old self.new }
    {
        let class = class_of(bytes).unwrap();
        let next = class + 1;
        if next == CLASSES {
            return class;
        }
        let has_group = self.works.rings.first(class).is_some();
        let usage = self.works.usage[class as usize];
        let next_usage = self.works.usage[next as usize];
        if coarse(class, has_group, usage, next_usage, true) == class {
            return class;
        }
        let is_ready = self.is_ready(space, next);
        coarse(class, has_group, usage, next_usage, is_ready)
    }

    // Whether the first group of a class has a slot in one of its masks.
    fn is_ready(&mut self, space: &Space<N>, class: u32) -> bool
        requires class { class < 48 }
        ensures ready { (c : Came self.old.seat self.new.seat) → IsReady c.words (ring_of self.old.rings class) result }
        ensures came { Came self.old.seat self.new.seat }
        ensures same { self.new ≡ record self.old { seat = self.new.seat } }
        ensures notes { Notes self.old.seat self.new.seat }
    {
        let Some(first) = self.works.rings.first(class) else {
            return false;
        };
        let avail = space.load_seat(&mut self.works.seat, first + AVAIL);
        let freed = space.load_seat(&mut self.works.seat, first + FREED);
        mask_of(avail) != 0 || freed != 0
    }
}
