ghost use Rattle.std.specs.Prelude.{◌≡◌, ◌≤◌, ◌+◌, ◌-◌, ◌^◌, [], min, sum_by, IfOk, IfErr, IsErr, OnOk, OnErr, Contains};
ghost use Rattle.ng_terms.specs.Causes.{HasCause, Rose};
ghost use Rattle.ng_mapper.specs.Runs.{AddsRun, RemovesRun};
ghost use Rattle.ng_mapper.specs.Mapping.{IsFree, Notes, NotesNone};
ghost use Rattle.ng_mapper.specs.FirstFit.{none_refused, CountsOne};
ghost use Rattle.ng_quota.specs.Quota.{IsOver, pages_of, refused_of};

use ng_mapper::{Mapper, Refusals, Refused};

/// Hands out the runs of an inner mapper, and refuses what would exceed a limit on the live pages.
#[derive(Drop)]
pub struct Quota<M: Mapper> {
    inner: M,
    /// The most pages that may live at a time.
    limit: u64,
    /// The pages of the inner mapper's live runs, so that no call walks over them.
    live: u64,
    /// What was refused without asking the inner mapper.
    own: Refusals,
    /// Whether the last refused call was one of those.
    by_own: bool,
    ghost counted: { live ≡ pages_of (M.runs inner) },
    ghost within: { live ≤ limit },
}

impl<M: Mapper> Quota<M> {
    /// A quota of so many pages over a mapper without a live run.
    pub fn new(inner: M, limit: u64) -> Quota<M>
        requires { M.runs inner ≡ [] }
        ensures inner { result.inner ≡ inner }
        ensures limit { result.limit ≡ limit }
        ensures own { result.own ≡ none_refused }
        ensures refused { refused_of result.own (M.refused result.inner) result.by_own ≡ M.refused inner }
    {
        // The proof takes from this that the inner one's count is a u64.
        let _count = inner.refusals();
        Quota {
            inner,
            limit,
            live: 0,
            own: Refusals {
                count: 0,
                last: 0,
                most: 0,
            },
            by_own: false,
        }
    }
}

impl<M: Mapper> Mapper for Quota<M> {
    ghost runs = { λ quota. M.runs quota.inner };

    ghost span = { λ quota. M.span quota.inner };

    ghost refused = { λ quota. refused_of quota.own (M.refused quota.inner) quota.by_own };

    fn pages(&self) -> u32 {
        self.inner.pages()
    }

    fn bounds(&self) -> (u64, u64) {
        self.inner.bounds()
    }

    fn map(&mut self, pages: u64) -> Result<u64, Refused>
        requires { 1 ≤ pages }
        ensures free { IfOk result (λ at.
            IsFree (M.span self.old.inner) (M.runs self.old.inner) (at, pages)) }
        ensures mapped { IfOk result (λ at.
            AddsRun (M.runs self.old.inner) (M.runs self.new.inner) (at, pages)) }
        ensures calm { OnOk result (NotesNone
            (refused_of self.old.own (M.refused self.old.inner) self.old.by_own)
            (refused_of self.new.own (M.refused self.new.inner) self.new.by_own)) }

        // Over the limit the inner mapper isn't asked.
        ensures over { IsOver self.old.limit (M.runs self.old.inner) pages → IsErr result }
        ensures unasked { IsOver self.old.limit (M.runs self.old.inner) pages
            → self.new.inner ≡ self.old.inner }
        ensures own { IsOver self.old.limit (M.runs self.old.inner) pages
            → CountsOne self.old.own self.new.own }
        // Else it is, and nobody else refuses.
        ensures asked { ¬ IsOver self.old.limit (M.runs self.old.inner) pages
            → self.new.own ≡ self.old.own }
        ensures inner_rose { ¬ IsOver self.old.limit (M.runs self.old.inner) pages
            → HasCause (M.refused self.old.inner).count (M.refused self.new.inner).count result }
        ensures inner_noted { ¬ IsOver self.old.limit (M.runs self.old.inner) pages
            → OnErr result (Notes (M.refused self.old.inner) (M.refused self.new.inner) pages) }
        ensures inner_calm { ¬ IsOver self.old.limit (M.runs self.old.inner) pages
            → OnOk result (NotesNone (M.refused self.old.inner) (M.refused self.new.inner)) }

        ensures cause { HasCause
            (refused_of self.old.own (M.refused self.old.inner) self.old.by_own).count
            (refused_of self.new.own (M.refused self.new.inner) self.new.by_own).count result }
        ensures number { IfErr result (λ error. error.number
            ≡ (refused_of self.new.own (M.refused self.new.inner) self.new.by_own).count) }
        ensures noted { OnErr result (Notes
            (refused_of self.old.own (M.refused self.old.inner) self.old.by_own)
            (refused_of self.new.own (M.refused self.new.inner) self.new.by_own) pages) }
        ensures kept { OnErr result (M.runs self.new.inner ≡ M.runs self.old.inner) }

        ensures constant { M.span self.new.inner ≡ M.span self.old.inner }
        ensures limit { self.new.limit ≡ self.old.limit }
    {
        if pages > self.limit - self.live {
            let own = self.own.refuse(pages);
            self.by_own = true;
            let number = own.number.saturating_add(self.inner.refusals());
            return Err(Refused { number });
        }
        match self.inner.map(pages) {
            Ok(at) => {
                self.live += pages;
                Ok(at)
            }
            Err(inner) => {
                self.by_own = false;
                let number = self.own.count.saturating_add(inner.number);
                Err(Refused { number })
            }
        }
    }

    fn unmap(&mut self, addr: u64, pages: u64)
        requires { Contains (M.runs self.old.inner) (addr, pages) }
        ensures unmapped { RemovesRun (M.runs self.old.inner) (M.runs self.new.inner) (addr, pages) }
        ensures calm { NotesNone
            (refused_of self.old.own (M.refused self.old.inner) self.old.by_own)
            (refused_of self.new.own (M.refused self.new.inner) self.new.by_own) }
        ensures own { self.new.own ≡ self.old.own }
        ensures constant { M.span self.new.inner ≡ M.span self.old.inner }
        ensures limit { self.new.limit ≡ self.old.limit }
    {
        self.inner.unmap(addr, pages);
        self.live -= pages;
    }

    fn refusals(&self) -> u64 {
        self.own.count.saturating_add(self.inner.refusals())
    }

    fn live_pages(&self) -> u64 {
        self.live
    }

    fn run_at(&self, addr: u64) -> Option<u64> {
        self.inner.run_at(addr)
    }

    ghost bounded = { λ quota. M.bounded quota.inner };

    ghost laid = { λ quota. M.laid quota.inner };
}
