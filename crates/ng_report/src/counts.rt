//! Counts of replies.

use crate::kinds::{
    gives, has_bad_align, is_absent, is_call, is_oversized, is_skipped, lacks_memory, resizes,
    takes,
};
use ng_terms::Reply;

/// How many replies were seen, and how many of them were of each kind.
#[derive(Clone, Copy, Debug, PartialEq, Eq)]
pub struct Counts {
    pub replies: u64,
    pub calls: u64,
    pub given: u64,
    pub taken: u64,
    pub resized: u64,
    pub no_memory: u64,
    pub too_large: u64,
    pub bad_align: u64,
    pub skipped: u64,
    pub absent: u64,
}

impl Counts {
    ghost use Rattle.std.specs.Prelude.{◌≡◌, ◌+◌, ◌^◌, ◌<◌, ◌≤◌, if◌then◌else◌};
    ghost use Rattle.ng_report.specs.Counts.{Raises, IsWithin};

    /// No reply was seen.
    pub const NONE: Counts = Counts {
        replies: 0,
        calls: 0,
        given: 0,
        taken: 0,
        resized: 0,
        no_memory: 0,
        too_large: 0,
        bad_align: 0,
        skipped: 0,
        absent: 0,
    };

    /// Counts a reply. Most are a block given or freed.
    pub fn add(&mut self, reply: &Reply)
        requires within { IsWithin self.old }
        requires room { self.old.replies + 1 < 2 ^ 64 }
        ensures raised { Raises self.old self.new (λ test. if test reply.now then 1 else 0) }
        ensures replies { self.new.replies ≡ self.old.replies + 1 }
        ensures within { IsWithin self.new }
    {
        match *reply {
            Reply::Given { .. } => {
                self.replies += 1;
                self.calls += 1;
                self.given += 1;
            }
            Reply::Freed { .. } => {
                self.replies += 1;
                self.calls += 1;
                self.taken += 1;
            }
            _ => self.add_by_kinds(reply),
        }
    }

    /// Counts a reply of any kind.
    fn add_by_kinds(&mut self, reply: &Reply)
        requires within { IsWithin self.old }
        requires room { self.old.replies + 1 < 2 ^ 64 }
        ensures raised { Raises self.old self.new (λ test. if test reply.now then 1 else 0) }
        ensures replies { self.new.replies ≡ self.old.replies + 1 }
        ensures within { IsWithin self.new }
    {
        self.replies += 1;
        self.calls += u64::from(is_call(reply));
        self.given += u64::from(gives(reply));
        self.taken += u64::from(takes(reply));
        self.resized += u64::from(resizes(reply));
        self.no_memory += u64::from(lacks_memory(reply));
        self.too_large += u64::from(is_oversized(reply));
        self.bad_align += u64::from(has_bad_align(reply));
        self.skipped += u64::from(is_skipped(reply));
        self.absent += u64::from(is_absent(reply));
    }
}
