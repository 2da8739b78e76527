ghost use Rattle.std.specs.Prelude.{◌≡◌, ◌≤◌, ◌<◌, ◌^◌, List, ℕ, length, map, sum_by, All, IfOk};
ghost use Rattle.ng_plan.specs.Plans.{lines_of, ops_from, plan_of, plan_with};
ghost use Rattle.ng_plan.specs.Schedules.{AreTurns, named_logs};
ghost use Rattle.ng_plan.specs.Sound.{IsSound};
ghost use Rattle.ng_plan.specs.Steps.{owns_of, steps_of};
ghost use Rattle.ng_plan.specs.Tables.{AreKnown, IsNumbered, Rises};
ghost use Rattle.ng_plan.specs.Turns.{Turns};

use crate::names::{Names, each_once, mention_all};
use crate::ops::log_ops;
use crate::own::owns;
use crate::rounds::all_turns;
use crate::schedule::Schedule;
use crate::step::Step;
use crate::steps::steps;
use ng_mtrace::{Log, Logs};
use ng_terms::{Host, Items, Op, Plan};
use std::alloc::{AllocError, Global};

/// The plan of logs.
pub fn plan(alloc: Global, logs: &Logs) -> Result<Plan, Host>
    requires few { length logs.now.logs ≤ 16 }
    requires short { sum_by length (lines_of logs.now.logs) ≤ 1000000 }
    ensures plan { IfOk result (λ plan. plan ≡ plan_of (lines_of logs.now.logs)) }

    // Each block has one maker and at most one taker, and is made first; each log has a turn for
    // each op, and there is no other turn.
    ensures sound { IfOk result IsSound }
{
    match plan_logs(alloc, logs.logs.as_slice()) {
        Ok(plan) => Ok(plan),
        Err(_) => Err(Host),
    }
}

/// The plan of logs.
fn plan_logs(alloc: Global, logs: &[Log]) -> Result<Plan, AllocError>
    requires few { length logs.now ≤ 16 }
    requires short { sum_by length (lines_of logs.now) ≤ 1000000 }
    ensures { IfOk result (λ plan. plan ≡ plan_of (lines_of logs.now)) }
{
    let names = Names::new(alloc, names_of(alloc, logs)?)?;
    let owns = all_owns(alloc, &names, logs)?;
    let steps = all_steps(alloc, &names, logs, owns.as_slice())?;
    let schedule = all_turns(alloc, names.len(), steps.as_slice())?;
    plan_from(alloc, schedule, logs, owns.as_slice())
}

/// The names that the logs mention, in order, each once.
fn names_of(alloc: Global, logs: &[Log]) -> Result<Vec<u64>, AllocError>
    requires { sum_by length (lines_of logs.now) ≤ 1000000 }
    ensures rising { IfOk result (λ names. Rises names.items) }
    ensures known { IfOk result (λ names. All (AreKnown names.items) logs.now) }
    ensures few { IfOk result (λ names. length names.items ≤ 2000000) }
{
    let mut names = Vec::new(alloc);
    for log in logs {
        mention_all(alloc, &mut names, log.lines.as_slice())?;
    }
    Ok(each_once(names))
}

/// The own ops of each log.
fn all_owns(
    alloc: Global,
    names: &Names,
    logs: &[Log],
) -> Result<Vec<Items<Option<u32>>>, AllocError>
    requires rising { Rises names.now }
    requires known { All (AreKnown names.now) logs.now }
    requires short { sum_by length (lines_of logs.now) ≤ 1000000 }
    ensures { IfOk result (λ owns. owns.items ≡ map owns_of (lines_of logs.now)) }
{
    let mut all = Vec::with_capacity(alloc, logs.len())?;
    for log in logs {
        let owns = owns(alloc, names, log.lines.as_slice())?;
        all.push(Items::from_vec(owns))?;
    }
    Ok(all)
}

/// The steps of each log.
fn all_steps(
    alloc: Global,
    names: &Names,
    logs: &[Log],
    owns: &[Items<Option<u32>>],
) -> Result<Vec<Items<Step>>, AllocError>
    requires rising { Rises names.now }
    requires known { All (AreKnown names.now) logs.now }
    requires short { sum_by length (lines_of logs.now) ≤ 1000000 }
    requires names_fit { length names.now < 2 ^ 32 }
    requires owns { owns.now ≡ map owns_of (lines_of logs.now) }
    ensures steps { IfOk result (λ steps. named_logs names.now steps.items
        ≡ map steps_of (lines_of logs.now)) }
    ensures numbers { IfOk result (λ steps. All (All (IsNumbered (length names.now))) steps.items) }
{
    let mut all = Vec::with_capacity(alloc, logs.len())?;
    for (at, log) in logs.iter().enumerate() {
        let steps = steps(alloc, names, log.lines.as_slice(), owns[at].as_slice())?;
        all.push(Items::from_vec(steps))?;
    }
    Ok(all)
}

/// The plan with these turns.
fn plan_from(
    alloc: Global,
    schedule: Schedule,
    logs: &[Log],
    owns: &[Items<Option<u32>>],
) -> Result<Plan, AllocError>
    requires few { length logs.now ≤ 16 }
    requires owns { owns.now ≡ map owns_of (lines_of logs.now) }
    ensures { IfOk result (λ plan. (names : List ℕ) (turns : Turns) → AreTurns names schedule turns
        → plan ≡ plan_with turns (lines_of logs.now)) }
{
    let ops = all_ops(alloc, &schedule, logs, owns)?;
    let mut receivers = Vec::with_capacity(alloc, schedule.takers.len())?;
    for taker in &schedule.takers {
        receivers.push(taker.log)?;
    }
    Ok(Plan {
        logs: ops,
        order: Items::from_vec(schedule.into_order()),
        receivers: Items::from_vec(receivers),
    })
}

/// The ops of each log.
fn all_ops(
    alloc: Global,
    schedule: &Schedule,
    logs: &[Log],
    owns: &[Items<Option<u32>>],
) -> Result<Items<Items<Op>>, AllocError>
    requires few { length logs.now ≤ 16 }
    requires owns { owns.now ≡ map owns_of (lines_of logs.now) }
    ensures { IfOk result (λ ops. (names : List ℕ) (turns : Turns)
        → AreTurns names schedule.now turns
        → ops ≡ ops_from turns 0 (lines_of logs.now)) }
{
    let mut all = Items::new(alloc);
    for (at, log) in logs.iter().enumerate() {
        let ops = log_ops(
            alloc,
            schedule,
            at as u32,
            log.lines.as_slice(),
            owns[at].as_slice(),
        )?;
        all.push(ops)?;
    }
    Ok(all)
}
