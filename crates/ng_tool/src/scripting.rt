// A script, read and made ready to be done.
ghost use Rattle.std.specs.Prelude.{◌≡◌, ◌≢◌, IfOk, IfErr, Err};
ghost use Rattle.ng_script.specs.Reads.{IsWithinLimits, ReadsScript};
ghost use Rattle.ng_terms.specs.Causes.{Rose};
ghost use Rattle.ng_tool.specs.Causes.{IsScriptDue};
ghost use Rattle.ng_tool.specs.Jobs.{IsDrill, IsSoundJob};
ghost use Rattle.ng_tool.specs.Statuses.{told_of, IsInputFault};

use crate::job::{Job, PreparedScript};
use ng_drill::text_room;
use ng_mtrace::Source;
use ng_script::{Script, ScriptFault, read_script};
use ng_words::Status;
use std::alloc::Global;

/// Makes the script of the input ready.
pub fn script_job<I: Source>(alloc: Global, input: &mut I) -> Result<Job, Status>
    ensures job { IfOk result (IsDrill (I.left input.old) (I.left input.new)) }
    ensures sound { IfOk result IsSoundJob }
    ensures read_fault { result ≡ Err Status.ReadFault → Rose (I.faults input.old) (I.faults input.new) }
    ensures unfailed { I.exact → result ≢ Err Status.ReadFault → I.faults input.new ≡ I.faults input.old }
    ensures due { IfErr result (IsScriptDue (I.left input.old) (I.left input.new)) }
    ensures kind { IfErr result IsInputFault }
{
    let script = script_of(alloc, input)?;
    let Ok(text) = Vec::with_capacity(alloc, text_room(script.commands.len())) else {
        return Err(Status::Host);
    };
    Ok(Job::Drilled(PreparedScript { script, text }))
}

/// The script of an input.
fn script_of<I: Source>(alloc: Global, input: &mut I) -> Result<Script, Status>
    ensures script { IfOk result (ReadsScript (I.left input.old) (I.left input.new)) }
    ensures limits { IfOk result IsWithinLimits }

    ensures read_fault { result ≡ Err Status.ReadFault → Rose (I.faults input.old) (I.faults input.new) }
    ensures unfailed { I.exact → result ≢ Err Status.ReadFault → I.faults input.new ≡ I.faults input.old }
    ensures due { IfErr result (IsScriptDue (I.left input.old) (I.left input.new)) }
    ensures kind { IfErr result IsInputFault }
{
    match read_script(alloc, input) {
        Ok(script) => Ok(script),
        Err(fault) => Err(status_of(fault)),
    }
}

/// The status that tells of a fault of a script.
fn status_of(fault: ScriptFault) -> Status
    ensures { result ≡ told_of fault }
{
    match fault {
        ScriptFault::Read => Status::ReadFault,
        ScriptFault::BadLine(line) => Status::BadLine(line),
        ScriptFault::Limit(line) => Status::Limit(line),
        ScriptFault::Host => Status::Host,
    }
}
