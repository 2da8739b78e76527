ghost use Rattle.std.specs.Prelude.{◌≡◌, ◌≢◌, ◌≤◌, ◌↔◌, List, All, Contains, IfOk, IfErr, IfSome, IsNone, OnOk, OnErr, sum_by};
ghost use Rattle.ng_terms.specs.Causes.{HasCause};
ghost use Rattle.ng_mapper.specs.declared.refusals.Refusals.{Refusals};
ghost use Rattle.ng_mapper.specs.Runs.{Run, AddsRun, RemovesRun};
ghost use Rattle.ng_mapper.specs.Mapping.{Span, IsSpan, AreLaid, IsFree, Notes, NotesNone};

use crate::refusals::Refusals;

/// A map call was refused.
#[derive(Clone, Copy, Debug, PartialEq, Eq)]
pub struct Refused {
    /// The count of refusals after that call.
    pub number: u64,
}

/// Hands out runs of pages of 4096 bytes, and takes them back.
pub trait Mapper {
    /// The live runs, in no order that counts.
    ghost runs: { Self → List Run };

    /// The bounds of the runs, and the size of the space.
    ghost span: { Self → Span };

    /// What was refused so far.
    ghost refused: { Self → Refusals };

    /// The size of the space, in pages.
    fn pages(&self) -> u32
        ensures { result ≡ (span self.now).size };

    /// The address below which no run begins, and the one above which none ends.
    fn bounds(&self) -> (u64, u64)
        ensures lower { result.0 ≡ (span self.now).lower }
        ensures upper { result.1 ≡ (span self.now).upper };

    /// A new run of so many pages, by its address. A refused call is counted, and leaves the live
    /// runs as they were.
    fn map(&mut self, pages: u64) -> Result<u64, Refused>
        requires { 1 ≤ pages }
        ensures free { IfOk result (λ at. IsFree (span self.old) (runs self.old) (at, pages)) }
        ensures mapped { IfOk result (λ at. AddsRun (runs self.old) (runs self.new) (at, pages)) }
        ensures calm { OnOk result (NotesNone (refused self.old) (refused self.new)) }

        ensures cause { HasCause (refused self.old).count (refused self.new).count result }
        ensures number { IfErr result (λ error. error.number ≡ (refused self.new).count) }
        ensures noted { OnErr result (Notes (refused self.old) (refused self.new) pages) }
        ensures kept { OnErr result (runs self.new ≡ runs self.old) }

        ensures constant { span self.new ≡ span self.old };

    /// Takes a live run back. It can't fail.
    fn unmap(&mut self, addr: u64, pages: u64)
        requires { Contains (runs self.old) (addr, pages) }
        ensures unmapped { RemovesRun (runs self.old) (runs self.new) (addr, pages) }
        ensures calm { NotesNone (refused self.old) (refused self.new) }
        ensures constant { span self.new ≡ span self.old };

    /// How many map calls were refused. At 2^64 - 1 the count stands still.
    fn refusals(&self) -> u64
        ensures { result ≡ (refused self.now).count };

    /// The pages of all live runs.
    fn live_pages(&self) -> u64
        ensures { result ≡ sum_by (λ run. run.1) (runs self.now) };

    /// The pages of the live run that begins at this address.
    fn run_at(&self, addr: u64) -> Option<u64>
        ensures some { IfSome result (λ pages. Contains (runs self.now) (addr, pages)) }
        ensures none { IsNone result ↔ All (λ run. run.0 ≢ addr) (runs self.now) };

    /// The bounds are page starts above the first page, in order and inside the space.
    ghost bounded: { (mapper : Self) → IsSpan (span mapper) };

    /// The live runs lie between the bounds, and no two of them share a byte.
    ghost laid: { (mapper : Self) → AreLaid (span mapper) (runs mapper) };
}
