ghost use Rattle.std.specs.Prelude.{◌≡◌, ◌≢◌, ◌<◌, ◌≤◌, ◌↔◌, ◌++◌, ◌∷◌, [], ℕ, All, AllPairs, Contains, IfOk, IsNone, IsTrue, length, replicate, slice_get};
ghost use Rattle.ng_meta.specs.Place.{IsMetaPlace};
ghost use Rattle.ng_lists.specs.Rings.{AreApart, IsListed, next_in, ring_of, rotated, with_ring, without};

use crate::links::Links;
use crate::place::{address_of, index_of};
use crate::zeros::meta_zero_bytes;
use ng_meta::is_meta_place;
use ng_terms::Host;
use std::alloc::Global;
use std::marker::Model;

/// How many size classes have a ring.
pub const CLASSES: u32 = 48;

/// The ring of each of the 48 size classes: the addresses of its metas, in cyclic order from the first one on. A meta
/// stands in one ring at most, and there once.
///
/// Each call but `open` does a fixed number of steps and takes no memory. `open` takes 909 bytes for each page of the
/// space, 9 for each of its 101 metas, and 192 bytes beside these. That is under a sixth of the table of cells, which
/// has 8192 bytes for each page.
#[derive(Drop)]
pub struct Rings {
    /// The pages of the space.
    pages: u32,
    /// For each class, the index of its ring's first meta, or of one without its mark where the ring is empty.
    heads: Vec<u32>,
    /// The neighbours in its ring of each meta that is in one.
    links: Links,
    /// For each meta, one more than the class of its ring, or 0 where it is in none.
    marks: Vec<u8>,
}

impl Model for Rings {
    ghost use Rattle.ng_lists.specs.Rings.{RingTable};
    ghost use Rattle.ng_lists.specs.Arrays.{IsSound, table_of};

    ghost Value = { RingTable };

    ghost view = { λ r. table_of r.heads.items r.links.next.items r.marks.items r.pages };

    ghost invariant = { λ r.
        IsSound r.heads.items r.links.next.items r.links.prev.items r.marks.items r.pages };
}

impl Rings {
    /// 48 empty rings, for the metas of a space of so many pages.
    pub fn open(alloc: Global, pages: u32) -> Result<Rings, Host>
        requires least { 16 ≤ pages }
        requires greatest { pages ≤ 16384 }
        ensures empty { IfOk result (λ opened. opened.rings ≡ replicate 48 []) }
        ensures pages { IfOk result (λ opened. opened.pages ≡ pages) }
    {
        let links = Links::open(alloc, pages)?;
        let marks = meta_zero_bytes(alloc, pages)?;
        let Ok(heads) = vec![in alloc; 0; CLASSES as usize] else {
            return Err(Host);
        };
        Ok(Rings {
            pages,
            heads,
            links,
            marks,
        })
    }

    /// The first meta of a ring, or `None` where the ring is empty.
    pub fn first(&self, class: u32) -> Option<u64>
        requires class { class < 48 }
        ensures first { result ≡ slice_get (ring_of self.now class) 0 }
        ensures none { IsNone result ↔ (ring_of self.now class ≡ []) }
    {
        let head = self.heads[class as usize];
        if u32::from(self.marks[head as usize]) == class + 1 {
            Some(address_of(head))
        } else {
            None
        }
    }

    /// The meta after one in its ring: after the last comes the first.
    pub fn next(&self, meta: u64) -> u64
        requires listed { IsListed self.now meta }
        ensures next { All (λ ring. Contains ring meta → result ≡ next_in ring meta) self.now.rings }
    {
        let next = &self.links.next;
        address_of(next[index_of(meta) as usize])
    }

    /// Whether a number is the address of a meta in a ring.
    pub fn has(&self, meta: u64) -> bool
        ensures listed { IsTrue result ↔ IsListed self.now meta }
    {
        is_meta_place(meta, self.pages) && self.marks[index_of(meta) as usize] != 0
    }

    /// Whether no other meta is in a meta's ring.
    pub fn alone(&self, meta: u64) -> bool
        requires listed { IsListed self.now meta }
        ensures alone { IsTrue result ↔ Contains self.now.rings (meta ∷ []) }
    {
        let next = &self.links.next;
        let index = index_of(meta);
        next[index as usize] == index
    }

    /// Puts a meta that is in no ring at the end of one.
    pub fn enqueue(&mut self, class: u32, meta: u64)
        requires class { class < 48 }
        requires place { IsMetaPlace meta self.old.pages }
        requires absent { ¬ IsListed self.old meta }
        ensures appended { self.new ≡ with_ring self.old class (ring_of self.old class ++ meta ∷ []) }
    {
        let head = self.heads[class as usize];
        let index = index_of(meta);
        if u32::from(self.marks[head as usize]) == class + 1 {
            let last = self.links.prev[head as usize];
            self.links.join(last, index);
            self.links.join(index, head);
        } else {
            self.heads[class as usize] = index;
            self.links.join(index, index);
        }
        self.marks[index as usize] = class as u8 + 1;
    }

    /// Takes a meta out of its ring.
    pub fn dequeue(&mut self, class: u32, meta: u64)
        requires class { class < 48 }
        requires member { Contains (ring_of self.old class) meta }
        ensures removed { self.new ≡ with_ring self.old class (without meta (ring_of self.old class)) }
    {
        let head = self.heads[class as usize];
        let index = index_of(meta);
        let before = self.links.prev[index as usize];
        let after = self.links.next[index as usize];
        self.links.join(before, after);
        if head == index {
            self.heads[class as usize] = after;
        }
        self.marks[index as usize] = 0;
    }

    /// Lets a ring begin with one of its metas, in the same cyclic order.
    pub fn rotate(&mut self, class: u32, meta: u64)
        requires class { class < 48 }
        requires member { Contains (ring_of self.old class) meta }
        ensures rotated { self.new ≡ with_ring self.old class (rotated meta (ring_of self.old class)) }
    {
        let heads = &mut self.heads;
        heads[class as usize] = index_of(meta);
    }

    /// What holds of the rings at all times. It does nothing.
    pub fn stand_once(&self)
        ensures classes { length self.now.rings ≡ 48 }
        ensures places { All (All (λ meta. IsMetaPlace meta self.now.pages)) self.now.rings }
        ensures once { All (AllPairs (λ meta other. meta ≢ other)) self.now.rings }
        ensures apart { AllPairs AreApart self.now.rings }
    {
        let _ = &self.pages;
    }
}
