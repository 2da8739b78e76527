// The memory of a heap, before it has its name.
ghost use Rattle.std.specs.Prelude.{◌≡◌, ◌<◌, ◌≤◌, ◌*◌, ◌^◌, ◌∷◌, [], IfOk, length, map, vec_capacity};
ghost use Rattle.ng_drill.specs.Caps as caps;
ghost use Rattle.ng_tool.specs.Opened.{IsFreshOver, IsStartOver};
ghost use Rattle.ng_replay.specs.Books.{rooms_for};
ghost use Rattle.ng_replay.specs.Serving.{IsCapOf};
ghost use Rattle.ng_terms.specs.Calls.{op_count};
ghost use Rattle.ng_terms.specs.Heap.{large};
ghost use Rattle.ng_view.specs.Layouts.{InRange};

use crate::closed::Closed;
use ng_group::Tables;
use ng_mapper::Mapper;
use ng_replay::cap_of;
use ng_script::Script;
use ng_space::{Blank, Start};
use ng_terms::{Host, Items, Mode, Op, Plan};
use std::alloc::{AllocError, Global};

/// The secret of the program's heap.
const SECRET: u64 = 0x0123_4567_89ab_cdef;

/// The entries of an op at most.
const ENTRIES: u64 = 2;

/// The cells and tables of a heap without a name, and room for what it ends as.
#[derive(Drop)]
pub struct Fresh {
    pub blank: Blank,
    pub tables: Tables,
    pub closed: Vec<Closed>,
    ghost none: { closed.items ≡ [] },
    ghost one: { 1 ≤ vec_capacity closed },
}

impl Fresh {
    /// Takes the memory of a heap for a plan under a mode, over a mapper.
    pub fn for_plan<M: Mapper>(
        alloc: Global,
        plan: &Plan,
        mode: Mode,
        mapper: &M,
    ) -> Result<Fresh, Host>
        requires few { length plan.now.logs ≤ 16 }
        requires short { op_count plan.now.logs ≤ 1000000 }
        requires least { 16 ≤ (M.span mapper.now).size }
        requires most { (M.span mapper.now).size ≤ 16384 }
        requires refusals { (M.refused mapper.now).count < 2 ^ 62 }
        ensures fits { IfOk result (λ fresh. IsFreshOver (M.span mapper.now) (M.refused mapper.now) fresh.blank fresh.tables) }
        ensures rooms { IfOk result (λ fresh. fresh.blank.rooms ≡ rooms_for plan.now) }
        ensures cap { IfOk result (λ fresh. IsCapOf fresh.blank.start.cap plan.now mode) }
    {
        let Ok(rooms) = rooms(alloc, plan.logs.as_slice()) else {
            return Err(Host);
        };
        Fresh::over(alloc, mapper, cap_of(plan, mode), rooms.as_slice())
    }

    /// Takes the memory of a heap for a script, over a mapper.
    pub fn for_script<M: Mapper>(alloc: Global, script: &Script, mapper: &M) -> Result<Fresh, Host>
        requires short { length script.now.commands ≤ 1000000 }
        requires least { 16 ≤ (M.span mapper.now).size }
        requires most { (M.span mapper.now).size ≤ 16384 }
        requires refusals { (M.refused mapper.now).count < 2 ^ 62 }
        ensures fits { IfOk result (λ fresh. IsFreshOver (M.span mapper.now) (M.refused mapper.now) fresh.blank fresh.tables) }
        ensures rooms { IfOk result (λ fresh. fresh.blank.rooms ≡ length script.now.commands ∷ []) }
        ensures cap { IfOk result (λ fresh. caps.IsCapOf script.now.commands fresh.blank.start.cap) }
    {
        let rooms = [script.commands.len() as u64];
        Fresh::over(alloc, mapper, ng_drill::cap_of(script), &rooms)
    }

    // Takes the memory of a heap over a mapper: its cells and tables, and a book with room for so many entries for each hand.
    fn over<M: Mapper>(alloc: Global, mapper: &M, cap: u64, rooms: &[u64]) -> Result<Fresh, Host>
        requires few { length rooms.now ≤ 16 }
        requires small { cap < large }
        requires least { 16 ≤ (M.span mapper.now).size }
        requires most { (M.span mapper.now).size ≤ 16384 }
        requires refusals { (M.refused mapper.now).count < 2 ^ 62 }
        ensures fits { IfOk result (λ fresh. IsFreshOver (M.span mapper.now) (M.refused mapper.now) fresh.blank fresh.tables) }
        ensures rooms { IfOk result (λ fresh. fresh.blank.rooms ≡ rooms.now) }
        ensures cap { IfOk result (λ fresh. fresh.blank.start.cap ≡ cap) }
    {
        let blank = Blank::new(alloc, start_of(mapper, cap), rooms)?;
        let tables = Tables::new(alloc, mapper.pages())?;
        let Ok(closed) = Vec::with_capacity(alloc, 1) else {
            return Err(Host);
        };
        Ok(Fresh {
            blank,
            tables,
            closed,
        })
    }
}

/// What a heap over the mapper starts with, where no request below the limit is above the cap.
fn start_of<M: Mapper>(mapper: &M, cap: u64) -> Start
    requires small { cap < large }
    requires least { 16 ≤ (M.span mapper.now).size }
    requires most { (M.span mapper.now).size ≤ 16384 }
    requires refusals { (M.refused mapper.now).count < 2 ^ 62 }
    ensures range { InRange result }
    ensures start { IsStartOver (M.span mapper.now) (M.refused mapper.now) result }
    ensures cap { result.cap ≡ cap }
{
    let (lower, upper) = mapper.bounds();
    Start {
        pages: u64::from(mapper.pages()),
        lower,
        upper,
        secret: SECRET,
        refusals: mapper.refusals(),
        cap,
    }
}

/// How many entries the book of each log may need.
#[tactic(auto, using(crate::proofs::OpenLemmas::ops_within))]
fn rooms(alloc: Global, logs: &[Items<Op>]) -> Result<Vec<u64>, AllocError>
    requires short { op_count logs.now ≤ 1000000 }
    ensures { IfOk result (λ rooms. rooms.items ≡ map (λ ops. 2 * length ops) logs.now) }
{
    let mut rooms = Vec::with_capacity(alloc, logs.len())?;
    for ops in logs {
        rooms.push_reserved(ENTRIES * ops.len() as u64);
    }
    Ok(rooms)
}
