ghost use Rattle.std.specs.Prelude.{◌≡◌, ◌⊎◌, ◌+◌, ◌<◌, ◌≤◌, ◌↔◌, All, IfOk, IsTrue, length, vec_capacity, vec_len};
ghost use Rattle.std.specs.Bool.{OnTrue, OnFalse};
ghost use Rattle.ng_terms.specs.Heap.{after, empty, resized, space_of, without, Apart, IsLegalStep, IsLive, MayExcuse, MayGive, MayResize};
ghost use Rattle.ng_history.specs.Steps.{excused, given, resized_to, taken};

use crate::legal::{ends_by, is_alignment, is_apart, is_too_large};
use ng_terms::{Entry, Extent, Host};
use std::alloc::Global;
use std::marker::Model;

/// The live blocks and the used excuses of a history. It takes no memory after it was opened.
///
/// A step is linear in the live blocks: this is for tests.
#[derive(Drop)]
pub struct Live {
    live: Vec<Extent>,
    used: Vec<u64>,
    room: u64,
}

impl Model for Live {
    ghost use Rattle.std.specs.Prelude.{◌≤◌, vec_capacity};
    ghost use Rattle.ng_history.specs.Live.{Shown, Holds};
    ghost use Rattle.ng_terms.specs.Heap.{State};

    ghost Value = { Shown };

    ghost view = { λ live. record { state = record { live = live.live.items; used = live.used.items }; room = live.room } };

    ghost invariant = { λ live. Holds live.room (vec_capacity live.live) (vec_capacity live.used) };
}

impl Live {
    /// No live block and no used excuse, with room for so many of each.
    pub fn open(alloc: Global, room: u64) -> Result<Live, Host>
        ensures state { IfOk result (λ live. live.state ≡ empty) }
        ensures room { IfOk result (λ live. live.room ≡ room) }
    {
        let Ok(live) = Vec::with_capacity(alloc, room as usize) else {
            return Err(Host);
        };
        let Ok(used) = Vec::with_capacity(alloc, room as usize) else {
            return Err(Host);
        };
        Ok(Live { live, used, room })
    }

    /// Takes an entry in, where it is a legal step in a space of so many bytes.
    pub fn step(&mut self, entry: &Entry, bytes: u64) -> bool
        requires live { length self.old.state.live < self.old.room }
        requires used { length self.old.state.used < self.old.room }
        ensures legal { IsTrue result ↔ IsLegalStep (space_of bytes) self.old.state entry.now }
        ensures taken_in { OnTrue result (self.new.state ≡ after self.old.state entry.now) }
        ensures kept { OnFalse result (self.new ≡ self.old) }
        ensures room { self.new.room ≡ self.old.room }
        ensures few_live { length self.new.state.live ≤ length self.old.state.live + 1 }
        ensures few_used { length self.new.state.used ≤ length self.old.state.used + 1 }
    {
        match *entry {
            Entry::Give { n, align, at } => self.give(Extent { at, len: n, align }, bytes),
            Entry::Take { at } => self.take(at),
            Entry::Resize { at, n } => self.resize(at, n, bytes),
            Entry::NoMemory { n: _, excuse } => self.excuse(excuse),
            Entry::TooLarge { count, size, align } => is_too_large(count, size, align),
            Entry::BadAlign { align } => !is_alignment(align),
            Entry::Refused { at: _, name } => name >= 1 && name <= 15,
        }
    }
}

/// The steps, each of which answers whether it was legal and taken in.
impl Live {
    fn give(&mut self, block: Extent, bytes: u64) -> bool
        requires { length self.old.state.live < self.old.room }
        ensures legal { IsTrue result ↔ MayGive (space_of bytes) self.old.state.live block }
        ensures taken_in { OnTrue result (self.new.state ≡ given block self.old.state) }
        ensures kept { OnFalse result (self.new ≡ self.old) }
        ensures room { self.new.room ≡ self.old.room }
        ensures few_live { length self.new.state.live ≤ length self.old.state.live + 1 }
        ensures few_used { length self.new.state.used ≤ length self.old.state.used + 1 }
    {
        let may = may_give(self.live.as_slice(), &block, bytes);
        if may {
            self.live.insert(0, block).unwrap();
        }
        may
    }

    fn take(&mut self, at: u64) -> bool
        ensures legal { IsTrue result ↔ IsLive self.old.state.live at }
        ensures taken_in { OnTrue result (self.new.state ≡ taken at self.old.state) }
        ensures kept { OnFalse result (self.new ≡ self.old) }
        ensures room { self.new.room ≡ self.old.room }
        ensures few_live { length self.new.state.live ≤ length self.old.state.live + 1 }
        ensures few_used { length self.new.state.used ≤ length self.old.state.used + 1 }
    {
        let lives = lives_at(self.live.as_slice(), at);
        if lives {
            remove_at(&mut self.live, at);
        }
        lives
    }

    fn excuse(&mut self, excuse: u64) -> bool
        requires { length self.old.state.used < self.old.room }
        ensures legal { IsTrue result ↔ MayExcuse self.old.state.used excuse }
        ensures taken_in { OnTrue result (self.new.state ≡ excused excuse self.old.state) }
        ensures kept { OnFalse result (self.new ≡ self.old) }
        ensures room { self.new.room ≡ self.old.room }
        ensures few_live { length self.new.state.live ≤ length self.old.state.live + 1 }
        ensures few_used { length self.new.state.used ≤ length self.old.state.used + 1 }
    {
        let may = excuse >= 1 && (excuse == u64::MAX || !self.used.contains(&excuse));
        if may {
            self.used.insert(0, excuse).unwrap();
        }
        may
    }

    fn resize(&mut self, at: u64, len: u64, bytes: u64) -> bool
        ensures legal { IsTrue result ↔ MayResize (space_of bytes) self.old.state.live at len }
        ensures taken_in { OnTrue result (self.new.state ≡ resized_to at len self.old.state) }
        ensures kept { OnFalse result (self.new ≡ self.old) }
        ensures room { self.new.room ≡ self.old.room }
        ensures few_live { length self.new.state.live ≤ length self.old.state.live + 1 }
        ensures few_used { length self.new.state.used ≤ length self.old.state.used + 1 }
    {
        let may = may_resize(self.live.as_slice(), at, len, bytes);
        if may {
            set_length(self.live.as_mut_slice(), at, len);
        }
        may
    }
}

/// Whether a block may be given beside the live ones.
fn may_give(live: &[Extent], block: &Extent, bytes: u64) -> bool
    ensures { IsTrue result ↔ MayGive (space_of bytes) live.now block.now }
{
    is_alignment(block.align)
        && block.at % block.align.max(16) == 0
        && block.at >= 4096
        && ends_by(block, bytes)
        && live.iter().all(|other| is_apart(other, block))
}

/// Whether the block at an address may get another length.
fn may_resize(live: &[Extent], at: u64, len: u64, bytes: u64) -> bool
    ensures { IsTrue result ↔ MayResize (space_of bytes) live.now at len }
{
    let block = Extent { at, len, align: 16 };
    lives_at(live, at) && ends_by(&block, bytes) && is_apart_but(live, at, &block)
}

/// Whether some live block has the address.
fn lives_at(live: &[Extent], at: u64) -> bool
    ensures { IsTrue result ↔ IsLive live.now at }
{
    live.iter().any(|block| block.at == at)
}

/// Whether a block is apart from each live one but that at an address.
fn is_apart_but(live: &[Extent], at: u64, block: &Extent) -> bool
    ensures { IsTrue result ↔ All (λ other. (other.at ≡ at) ⊎ Apart other block.now) live.now }
{
    live.iter().all(|other| is_at_or_apart(other, at, block))
}

/// Whether a live block has the address, or is apart from another block.
fn is_at_or_apart(other: &Extent, at: u64, block: &Extent) -> bool
    ensures { IsTrue result ↔ ((other.now.at ≡ at) ⊎ Apart other.now block.now) }
{
    other.at == at || is_apart(other, block)
}

/// Removes the blocks at an address.
fn remove_at(live: &mut Vec<Extent>, at: u64)
    ensures items { live.new.items ≡ without at live.old.items }
    ensures few { vec_len live.new ≤ vec_len live.old }
    ensures room { vec_capacity live.new ≡ vec_capacity live.old }
{
    live.retain(|block| block.at != at);
}

/// Gives the block at an address another length, and the common alignment.
fn set_length(live: &mut [Extent], at: u64, len: u64)
    ensures { live.new ≡ resized at len live.old }
{
    for block in live.iter_mut() {
        if block.at == at {
            *block = Extent { at, len, align: 16 };
        }
    }
}
