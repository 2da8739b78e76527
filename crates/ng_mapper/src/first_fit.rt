ghost use Rattle.std.specs.Prelude.{◌≡◌, ◌≤◌, ◌↔◌, [], IfOk, IfErr, IsErr, OnOk, OnErr, Contains, vec_capacity};
ghost use Rattle.ng_terms.specs.Causes.{HasCause};
ghost use Rattle.ng_mapper.specs.Runs.{AddsRun, RemovesRun};
ghost use Rattle.ng_mapper.specs.Mapping.{IsSpan, IsFree, Notes};
ghost use Rattle.ng_mapper.specs.Holes.{whole, IsLowest, HasNoHole};
ghost use Rattle.ng_mapper.specs.InOrder.{AreInOrder, laid-ordered};

use crate::hole::find_hole;
use crate::mapper::{Mapper, Refused};
use crate::refusals::Refusals;
use crate::run_list::{insert_run, is_listed, page_sum, run_index};
use ng_terms::Host;
use std::alloc::Global;

/// Gives the lowest hole that fits, and refuses the map calls of a list besides.
#[derive(Drop)]
pub struct FirstFit {
    /// The live runs in the order of their addresses.
    runs: Vec<(u64, u64)>,
    /// The size of the space.
    pages: u32,
    /// The numbers, from 1, of the map calls to refuse.
    refuse: Vec<u64>,
    /// How many map calls were made.
    calls: u64,
    refused: Refusals,
    /// No hole has so many pages, so that such a call is refused without a walk over the runs.
    too_many: u64,
    ghost least: { 16 ≤ pages },
    ghost greatest: { pages ≤ 16384 },
    ghost bounded: { IsSpan (whole pages) },
    ghost ordered: { AreInOrder (whole pages) runs.items },
    ghost room: { pages ≤ vec_capacity runs },
    ghost some: { 1 ≤ too_many },
    ghost none_fits: { HasNoHole (whole pages) runs.items too_many },
}

impl FirstFit {
    ghost use Rattle.ng_mapper.specs.FirstFit.{runs_of, span_of, refused_of, none_refused, schedule_of, no_calls};

    /// A space of 16 to 16384 pages without a live run. `refuse` has the numbers, from 1, of the
    /// map calls to refuse.
    pub fn new(alloc: Global, pages: u32, refuse: Vec<u64>) -> Result<FirstFit, Host>
        requires least { 16 ≤ pages }
        requires greatest { pages ≤ 16384 }
        ensures runs { IfOk result (λ mapper. runs_of mapper ≡ []) }
        ensures span { IfOk result (λ mapper. span_of mapper ≡ whole pages) }
        ensures refused { IfOk result (λ mapper. refused_of mapper ≡ none_refused) }
        ensures schedule { IfOk result (λ mapper. schedule_of mapper ≡ no_calls refuse.items) }
    {
        let Ok(runs) = Vec::with_capacity(alloc, pages as usize) else {
            return Err(Host);
        };
        Ok(FirstFit {
            runs,
            pages,
            refuse,
            calls: 0,
            refused: Refusals {
                count: 0,
                last: 0,
                most: 0,
            },
            too_many: u64::from(pages),
        })
    }
}

impl Mapper for FirstFit {
    ghost use Rattle.ng_mapper.specs.FirstFit.{runs_of, span_of, refused_of, schedule_of, next_call, CountsOne, MustRefuse};

    ghost runs = { runs_of };

    ghost span = { span_of };

    ghost refused = { refused_of };

    fn pages(&self) -> u32 {
        self.pages
    }

    fn bounds(&self) -> (u64, u64) {
        (4096, 4096 * u64::from(self.pages))
    }

    fn map(&mut self, pages: u64) -> Result<u64, Refused>
        requires { 1 ≤ pages }
        ensures free { IfOk result (λ at.
            IsFree (span_of self.old) (runs_of self.old) (at, pages)) }
        ensures lowest { IfOk result (IsLowest (span_of self.old) (runs_of self.old) pages) }
        ensures mapped { IfOk result (λ at.
            AddsRun (runs_of self.old) (runs_of self.new) (at, pages)) }
        ensures calm { OnOk result (refused_of self.new ≡ refused_of self.old) }

        // A call is refused where its number is listed or no hole fits, and nowhere else.
        ensures exactly { IsErr result ↔ MustRefuse self.old pages }
        ensures cause { HasCause (refused_of self.old).count (refused_of self.new).count result }
        ensures by_one { OnErr result (CountsOne (refused_of self.old) (refused_of self.new)) }
        ensures number { IfErr result (λ error. error.number ≡ (refused_of self.new).count) }
        ensures noted { OnErr result (Notes (refused_of self.old) (refused_of self.new) pages) }
        ensures kept { OnErr result (runs_of self.new ≡ runs_of self.old) }

        ensures constant { span_of self.new ≡ span_of self.old }
        ensures schedule { schedule_of self.new ≡ next_call (schedule_of self.old) }
    {
        self.calls = self.calls.saturating_add(1);
        if is_listed(&self.refuse, self.calls) {
            return Err(self.refused.refuse(pages));
        }
        let Some(hole) = find_hole(&self.runs, self.pages, pages, self.too_many) else {
            self.too_many = self.too_many.min(pages);
            return Err(self.refused.refuse(pages));
        };
        insert_run(&mut self.runs, hole.next, (hole.at, pages));
        Ok(hole.at)
    }

    fn unmap(&mut self, addr: u64, pages: u64)
        requires { Contains (runs_of self.old) (addr, pages) }
        ensures unmapped { RemovesRun (runs_of self.old) (runs_of self.new) (addr, pages) }
        ensures calm { refused_of self.new ≡ refused_of self.old }
        ensures constant { span_of self.new ≡ span_of self.old }
        ensures schedule { schedule_of self.new ≡ schedule_of self.old }
    {
        if let Some(k) = run_index(&self.runs, addr) {
            self.runs.remove(k);
            self.too_many = u64::from(self.pages);
        }
    }

    fn refusals(&self) -> u64 {
        self.refused.count
    }

    fn live_pages(&self) -> u64 {
        page_sum(&self.runs, self.pages)
    }

    fn run_at(&self, addr: u64) -> Option<u64> {
        let k = run_index(&self.runs, addr)?;
        Some(self.runs[k].1)
    }

    ghost bounded = { λ mapper. mapper.bounded };

    ghost laid = { λ mapper. laid-ordered (span_of mapper) (runs_of mapper) mapper.ordered };
}
