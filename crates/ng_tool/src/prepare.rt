ghost use Rattle.std.specs.Prelude.{◌≡◌, ◌≢◌, ◌≤◌, IfOk, IfErr, Err, length};
ghost use Rattle.ng_generator.specs.Generated.{made};
ghost use Rattle.ng_plan.specs.Plans.{plan_of};
ghost use Rattle.ng_plan.specs.Sound.{IsSound};
ghost use Rattle.ng_terms.specs.Calls.{op_count};
ghost use Rattle.ng_terms.specs.Causes.{Rose};
ghost use Rattle.ng_tool.specs.Causes.{IsInputDue, IsLogsDue};
ghost use Rattle.ng_tool.specs.Inputs.{PlansInput};
ghost use Rattle.ng_tool.specs.Jobs.{IsCount, IsJob, IsMade, IsReplay, IsSoundJob};
ghost use Rattle.ng_tool.specs.Statuses.{told_by, IsInputFault};

use crate::job::{Job, Prepared};
use crate::scripting::script_job;
use ng_census::CENSUS;
use ng_generator::made_logs;
use ng_mtrace::{LogFault, Source, read_logs};
use ng_plan::plan;
use ng_report::report_room;
use ng_terms::{Host, Mode, Plan};
use ng_words::{Command, Status, Verb};
use std::alloc::Global;

/// Blocks with the common alignment, whose bytes aren't set.
const PLAIN: Mode = Mode {
    align: None,
    zero: false,
};

/// Makes ready what a command asks for, of the input where it reads one.
pub fn prepare<I: Source>(alloc: Global, input: &mut I, command: &Command) -> Result<Job, Status>
    ensures job { IfOk result (IsJob command.now.verb command.now (I.left input.old) (I.left input.new)) }
    ensures sound { IfOk result IsSoundJob }
    ensures read_fault { result ≡ Err Status.ReadFault → Rose (I.faults input.old) (I.faults input.new) }
    ensures unfailed { I.exact → result ≢ Err Status.ReadFault → I.faults input.new ≡ I.faults input.old }
    ensures unread { command.now.verb ≡ Verb.Make → input.new ≡ input.old }
    ensures due { IfErr result (IsInputDue command.now.verb (I.left input.old) (I.left input.new)) }
    ensures kind { IfErr result IsInputFault }
{
    match command.verb {
        Verb::Serial | Verb::Replay => replay_job(alloc, input, command),
        Verb::Check => count_job(alloc, input),
        Verb::Drill => script_job(alloc, input),
        Verb::Make => made_job(alloc, command.seed),
    }
}

/// Makes the replay of the input's logs ready.
fn replay_job<I: Source>(alloc: Global, input: &mut I, command: &Command) -> Result<Job, Status>
    ensures job { IfOk result (IsReplay command.now (I.left input.old) (I.left input.new)) }
    ensures sound { IfOk result IsSoundJob }
    ensures read_fault { result ≡ Err Status.ReadFault → Rose (I.faults input.old) (I.faults input.new) }
    ensures unfailed { I.exact → result ≢ Err Status.ReadFault → I.faults input.new ≡ I.faults input.old }
    ensures due { IfErr result (IsLogsDue (I.left input.old) (I.left input.new)) }
    ensures kind { IfErr result IsInputFault }
{
    let prepared = prepare_logs(alloc, input, command.mode, command.calls_shown)?;
    Ok(Job::Replayed(prepared))
}

/// Reads the input's logs, plans, and takes the memory for their replay.
pub fn prepare_logs<I: Source>(
    alloc: Global,
    input: &mut I,
    mode: Mode,
    calls_shown: bool,
) -> Result<Prepared, Status>
    ensures input { IfOk result (λ run. PlansInput (I.left input.old) (I.left input.new) run.plan) }
    ensures mode { IfOk result (λ run. run.mode ≡ mode) }
    ensures calls { IfOk result (λ run. run.calls_shown ≡ calls_shown) }
    ensures sound { IfOk result (λ run. IsSound run.plan) }
    ensures read_fault { result ≡ Err Status.ReadFault → Rose (I.faults input.old) (I.faults input.new) }
    ensures unfailed { I.exact → result ≢ Err Status.ReadFault → I.faults input.new ≡ I.faults input.old }
    ensures due { IfErr result (IsLogsDue (I.left input.old) (I.left input.new)) }
    ensures kind { IfErr result IsInputFault }
{
    let plan = planned_input(alloc, input)?;
    match with_room(alloc, plan, mode, calls_shown) {
        Ok(prepared) => Ok(prepared),
        Err(Host) => Err(Status::Host),
    }
}

/// The plan with room for its replies and its report.
fn with_room(alloc: Global, plan: Plan, mode: Mode, calls_shown: bool) -> Result<Prepared, Host>
    requires few { length plan.logs ≤ 16 }
    requires short { op_count plan.logs ≤ 1000000 }
    ensures plan { IfOk result (λ run. run.plan ≡ plan) }
    ensures mode { IfOk result (λ run. run.mode ≡ mode) }
    ensures calls { IfOk result (λ run. run.calls_shown ≡ calls_shown) }
{
    let Ok(text) = Vec::with_capacity(alloc, report_room(&plan, calls_shown)) else {
        return Err(Host);
    };
    Ok(Prepared {
        plan,
        mode,
        calls_shown,
        text,
    })
}

/// The plan of the logs of an input.
fn planned_input<I: Source>(alloc: Global, input: &mut I) -> Result<Plan, Status>
    ensures plan { IfOk result (PlansInput (I.left input.old) (I.left input.new)) }
    ensures sound { IfOk result IsSound }
    ensures few { IfOk result (λ plan. length plan.logs ≤ 16) }
    ensures short { IfOk result (λ plan. op_count plan.logs ≤ 1000000) }
    ensures read_fault { result ≡ Err Status.ReadFault → Rose (I.faults input.old) (I.faults input.new) }
    ensures unfailed { I.exact → result ≢ Err Status.ReadFault → I.faults input.new ≡ I.faults input.old }
    ensures due { IfErr result (IsLogsDue (I.left input.old) (I.left input.new)) }
    ensures kind { IfErr result IsInputFault }
{
    let logs = match read_logs(alloc, input) {
        Ok(logs) => logs,
        Err(fault) => return Err(status_of(fault)),
    };
    match plan(alloc, &logs) {
        Ok(plan) => Ok(plan),
        Err(Host) => Err(Status::Host),
    }
}

/// The census of the input's plan, as a text.
fn count_job<I: Source>(alloc: Global, input: &mut I) -> Result<Job, Status>
    ensures job { IfOk result (IsCount (I.left input.old) (I.left input.new)) }
    ensures sound { IfOk result IsSoundJob }
    ensures read_fault { result ≡ Err Status.ReadFault → Rose (I.faults input.old) (I.faults input.new) }
    ensures unfailed { I.exact → result ≢ Err Status.ReadFault → I.faults input.new ≡ I.faults input.old }
    ensures due { IfErr result (IsLogsDue (I.left input.old) (I.left input.new)) }
    ensures kind { IfErr result IsInputFault }
{
    let plan = planned_input(alloc, input)?;
    let Ok(mut text) = Vec::with_capacity(alloc, CENSUS) else {
        return Err(Status::Host);
    };
    ng_census::render(&plan, &mut text);
    Ok(Job::Counted(text))
}

/// Makes the replay ready of logs that are made of a number.
fn made_job(alloc: Global, seed: u64) -> Result<Job, Status>
    ensures job { IfOk result (IsMade seed) }
    ensures sound { IfOk result IsSoundJob }
    ensures host { IfErr result (λ status. status ≡ Status.Host) }
{
    let Ok(plan) = planned_made(alloc, seed) else {
        return Err(Status::Host);
    };
    match with_room(alloc, plan, PLAIN, false) {
        Ok(prepared) => Ok(Job::Replayed(prepared)),
        Err(Host) => Err(Status::Host),
    }
}

/// The plan of logs that are made of a number.
fn planned_made(alloc: Global, seed: u64) -> Result<Plan, Host>
    ensures plan { IfOk result (λ plan. plan ≡ plan_of (made seed)) }
    ensures sound { IfOk result IsSound }
    ensures few { IfOk result (λ plan. length plan.logs ≤ 16) }
    ensures short { IfOk result (λ plan. op_count plan.logs ≤ 1000000) }
{
    let logs = made_logs(alloc, seed)?;
    match plan(alloc, &logs) {
        Ok(plan) => Ok(plan),
        Err(Host) => Err(Host),
    }
}

/// The status that tells of a fault of the input.
fn status_of(fault: LogFault) -> Status
    ensures { result ≡ told_by fault }
{
    match fault {
        LogFault::Read => Status::ReadFault,
        LogFault::BadLine(line) => Status::BadLine(line),
        LogFault::Limit(line) => Status::Limit(line),
        LogFault::NoLog => Status::NoLog,
        LogFault::Host => Status::Host,
    }
}
