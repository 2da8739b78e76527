// What is made ready for a command, done on a heap of its own, or without one.
ghost use Rattle.std.specs.Prelude.{◌≡◌, ◌⊎◌, ◌≤◌, ◌<◌, ◌^◌, []};
ghost use Rattle.ng_plan.specs.Sound.{IsSound};
ghost use Rattle.ng_policy.specs.Policy.{Counts, Keeps};
ghost use Rattle.ng_replay.specs.Serving.{counts_of};
ghost use Rattle.ng_script.specs.Reads.{IsWithinLimits};
ghost use Rattle.ng_terms.specs.Causes.{Rose};
ghost use Rattle.ng_tool.specs.Drill.{Drills};
ghost use Rattle.ng_tool.specs.Jobs.{IsCounted, IsSoundJob, Tells};
ghost use Rattle.ng_tool.specs.Statuses.{IsLate};
ghost use Rattle.ng_tool.specs.Tool.{Runs, Writes};

use crate::closed::Closed;
use crate::drilling::run_script;
use crate::fresh::Fresh;
use crate::job::{Job, Prepared, PreparedScript};
use crate::run::run;
use ng_mapper::Mapper;
use ng_mtrace::{Failed, Sink, write_all};
use ng_policy::{Ask, Policy, Spare};
use ng_terms::Host;
use ng_words::Status;
use std::alloc::Global;
use std::marker::Brand;

/// Does a job, and writes what came of it. Where the host has too little memory, nothing is done, and the mapper comes back as
/// it was.
pub fn perform<O: Sink, M: Mapper, C: Fn(Ask) -> u32 + Drop, K: Fn(Spare) -> bool + Drop>(
    alloc: Global,
    job: Job,
    out: &mut O,
    mapper: M,
    policy: Policy<C, K>,
) -> (Status, M, Vec<Closed>)
    requires no_runs { M.runs mapper ≡ [] }
    requires least { 16 ≤ (M.span mapper).size }
    requires most { (M.span mapper).size ≤ 16384 }
    requires refusals { (M.refused mapper).count < 2 ^ 62 }
    requires counts { Counts C.pre C.post policy.count }
    requires keeps { Keeps K.pre policy.keep }
    requires sound { IsSoundJob job }
    ensures late { (result.0 ≡ Status.Host) ⊎ IsLate result.0 }
    ensures write_fault { result.0 ≡ Status.WriteFault → Rose (O.faults out.old) (O.faults out.new) }
    ensures ends { IsLate result.0 → Writes (Tells job (M.span mapper)
        (counts_of (M.refused mapper)) (counts_of (M.refused result.1)) (M.runs result.1) result.2.items)
        (O.written out.old) (O.written out.new) result.0 }
    ensures heapless { IsCounted job → result.1 ≡ mapper }
    ensures span { M.span result.1 ≡ M.span mapper }
    ensures nothing { result.0 ≡ Status.Host → O.written out.new ≡ O.written out.old }
    ensures handed_back { result.0 ≡ Status.Host → result.1 ≡ mapper }
    ensures none { result.0 ≡ Status.Host → result.2.items ≡ [] }
{
    match job {
        Job::Replayed(prepared) => replay_plan(alloc, prepared, out, mapper, policy),
        Job::Drilled(prepared) => do_script(alloc, prepared, out, mapper, policy),
        Job::Counted(text) => match write_all(out, text.as_slice()) {
            Ok(()) => (Status::Done, mapper, Vec::new(alloc)),
            Err(Failed) => (Status::WriteFault, mapper, Vec::new(alloc)),
        },
    }
}

/// Does the ops of a plan in its order.
fn replay_plan<O: Sink, M: Mapper, C: Fn(Ask) -> u32 + Drop, K: Fn(Spare) -> bool + Drop>(
    alloc: Global,
    prepared: Prepared,
    out: &mut O,
    mapper: M,
    policy: Policy<C, K>,
) -> (Status, M, Vec<Closed>)
    requires no_runs { M.runs mapper ≡ [] }
    requires least { 16 ≤ (M.span mapper).size }
    requires most { (M.span mapper).size ≤ 16384 }
    requires refusals { (M.refused mapper).count < 2 ^ 62 }
    requires counts { Counts C.pre C.post policy.count }
    requires keeps { Keeps K.pre policy.keep }
    requires sound { IsSound prepared.plan }
    ensures late { (result.0 ≡ Status.Host) ⊎ IsLate result.0 }
    ensures write_fault { result.0 ≡ Status.WriteFault → Rose (O.faults out.old) (O.faults out.new) }
    ensures ends { IsLate result.0 → Writes (Runs prepared.plan prepared.mode prepared.calls_shown (M.span mapper)
        (counts_of (M.refused mapper)) (counts_of (M.refused result.1)) (M.runs result.1) result.2.items)
        (O.written out.old) (O.written out.new) result.0 }
    ensures span { M.span result.1 ≡ M.span mapper }
    ensures nothing { result.0 ≡ Status.Host → O.written out.new ≡ O.written out.old }
    ensures handed_back { result.0 ≡ Status.Host → result.1 ≡ mapper }
    ensures none { result.0 ≡ Status.Host → result.2.items ≡ [] }
{
    match Fresh::for_plan(alloc, &prepared.plan, prepared.mode, &mapper) {
        Ok(fresh) => run::<Brand, _, _, _>(alloc, prepared, fresh, mapper, policy, out),
        Err(Host) => (Status::Host, mapper, Vec::new(alloc)),
    }
}

/// Does the commands of a script.
fn do_script<O: Sink, M: Mapper, C: Fn(Ask) -> u32 + Drop, K: Fn(Spare) -> bool + Drop>(
    alloc: Global,
    prepared: PreparedScript,
    out: &mut O,
    mapper: M,
    policy: Policy<C, K>,
) -> (Status, M, Vec<Closed>)
    requires no_runs { M.runs mapper ≡ [] }
    requires least { 16 ≤ (M.span mapper).size }
    requires most { (M.span mapper).size ≤ 16384 }
    requires refusals { (M.refused mapper).count < 2 ^ 62 }
    requires counts { Counts C.pre C.post policy.count }
    requires keeps { Keeps K.pre policy.keep }
    requires sound { IsWithinLimits prepared.script }
    ensures late { (result.0 ≡ Status.Host) ⊎ IsLate result.0 }
    ensures write_fault { result.0 ≡ Status.WriteFault → Rose (O.faults out.old) (O.faults out.new) }
    ensures ends { IsLate result.0 → Writes (Drills prepared.script (M.span mapper)
        (counts_of (M.refused mapper)) (counts_of (M.refused result.1)) (M.runs result.1) result.2.items)
        (O.written out.old) (O.written out.new) result.0 }
    ensures span { M.span result.1 ≡ M.span mapper }
    ensures nothing { result.0 ≡ Status.Host → O.written out.new ≡ O.written out.old }
    ensures handed_back { result.0 ≡ Status.Host → result.1 ≡ mapper }
    ensures none { result.0 ≡ Status.Host → result.2.items ≡ [] }
{
    match Fresh::for_script(alloc, &prepared.script, &mapper) {
        Ok(fresh) => run_script::<Brand, _, _, _>(alloc, prepared, fresh, mapper, policy, out),
        Err(Host) => (Status::Host, mapper, Vec::new(alloc)),
    }
}
