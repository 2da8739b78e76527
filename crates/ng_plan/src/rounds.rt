ghost use Rattle.std.specs.Prelude.{◌≡◌, ◌<◌, ◌≤◌, ℕ, List, length, sum_by, false, All, Ok, IfOk, IfNone, IfSome, OnOk};
ghost use Rattle.ng_plan.specs.Schedules.{AllDone, AreTurns, FitsLogs, IsFirstLeft, named_logs};
ghost use Rattle.ng_plan.specs.Tables.{IsNumbered, Rises};
ghost use Rattle.ng_plan.specs.Turns.{Turns, go_on as go_on_of, round as round_of, skip as skip_of, turns_of};

use crate::schedule::Schedule;
use crate::step::Step;
use ng_terms::Items;
use std::alloc::{AllocError, Global};

/// All turns of the logs.
pub fn all_turns(alloc: Global, names: usize, logs: &[Items<Step>]) -> Result<Schedule, AllocError>
    requires few { length logs.now ≤ 16 }
    requires short { sum_by length logs.now ≤ 1000000 }
    requires numbers { All (All (IsNumbered names)) logs.now }
    ensures { IfOk result (λ schedule. (names_of : List ℕ) → Rises names_of
        → length names_of ≡ names
        → AreTurns names_of schedule (turns_of (named_logs names_of logs.now))) }
{
    let total = count(logs);
    let mut schedule = Schedule::new(alloc, names, logs.len(), total)?;
    for _ in 0..total {
        if !go_on(&mut schedule, logs)? {
            return Ok(schedule);
        }
    }
    Ok(schedule)
}

/// How many ops the logs have.
fn count(logs: &[Items<Step>]) -> usize
    requires { sum_by length logs.now ≤ 1000000 }
    ensures { result ≡ sum_by length logs.now }
{
    let mut total = 0;
    for log in logs {
        total += log.len();
    }
    total
}

/// A round, and a skip where it does nothing. `false`: all ops are done.
fn go_on(schedule: &mut Schedule, logs: &[Items<Step>]) -> Result<bool, AllocError>
    requires { FitsLogs schedule.old logs.now }
    ensures fits { OnOk result (FitsLogs schedule.new logs.now) }
    ensures turns { OnOk result ((names : List ℕ) (turns : Turns)
        → AreTurns names schedule.old turns
        → AreTurns names schedule.new (go_on_of (named_logs names logs.now) turns)) }
    ensures all { result ≡ Ok false → AllDone schedule.new logs.now }
{
    let before = schedule.order.len();
    round(schedule, logs)?;
    if schedule.order.len() == before {
        skip(schedule, logs)
    } else {
        Ok(true)
    }
}

/// The place of each log in a round.
fn round(schedule: &mut Schedule, logs: &[Items<Step>]) -> Result<(), AllocError>
    requires { FitsLogs schedule.old logs.now }
    ensures fits { OnOk result (FitsLogs schedule.new logs.now) }
    ensures turns { OnOk result ((names : List ℕ) (turns : Turns)
        → AreTurns names schedule.old turns
        → AreTurns names schedule.new (round_of (named_logs names logs.now) turns)) }
{
    for (log, steps) in logs.iter().enumerate() {
        schedule.turn(log as u32, steps.as_slice())?;
    }
    Ok(())
}

/// The first log with ops left does its op, and its claim takes no block. `false`: all ops are
/// done.
fn skip(schedule: &mut Schedule, logs: &[Items<Step>]) -> Result<bool, AllocError>
    requires { FitsLogs schedule.old logs.now }
    ensures fits { OnOk result (FitsLogs schedule.new logs.now) }
    ensures turns { OnOk result ((names : List ℕ) (turns : Turns)
        → AreTurns names schedule.old turns
        → AreTurns names schedule.new (skip_of (named_logs names logs.now) turns)) }
    ensures all { result ≡ Ok false → AllDone schedule.new logs.now }
{
    let Some((log, step)) = first_left(schedule, logs) else {
        return Ok(false);
    };
    schedule.finish(log as u32, step.posts)?;
    Ok(true)
}

/// The first log with ops left, and the step of its next op.
fn first_left(schedule: &Schedule, logs: &[Items<Step>]) -> Option<(usize, Step)>
    requires { FitsLogs schedule.now logs.now }
    ensures first { IfSome result (λ found. IsFirstLeft schedule.now logs.now found.0 found.1) }
    ensures none { IfNone result (AllDone schedule.now logs.now) }
{
    for (log, steps) in logs.iter().enumerate() {
        if let Some(step) = schedule.next(log, steps.as_slice()) {
            return Some((log, step));
        }
    }
    None
}
