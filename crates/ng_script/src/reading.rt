ghost use Rattle.std.specs.Prelude.{◌≡◌, ◌≢◌, ◌≤◌, ℕ, IfOk, Err};
ghost use Rattle.ng_script.specs.Reads.{ReadsScript, MeetsFault, TakesFaultless, IsWithinLimits};
ghost use Rattle.ng_terms.specs.Causes.{Rose};

use crate::part_script::PartScript;
use crate::script::Script;
use crate::script_fault::ScriptFault;
use ng_mtrace::Source;
use std::alloc::Global;

/// The bytes that one read asks for.
const PIECE: usize = 65536;

/// Reads a script to its end, or to its first fault.
pub fn read_script<I: Source>(alloc: Global, input: &mut I) -> Result<Script, ScriptFault>
    ensures ok { IfOk result (λ script. ReadsScript (I.left input.old) (I.left input.new) script) }
    ensures limits { IfOk result IsWithinLimits }

    // The first event in the order of the bytes decides: a read that fails behind a fault hides
    // none, and no other answer comes behind a read that failed.
    ensures read { result ≡ Err ScriptFault.Read → Rose (I.faults input.old) (I.faults input.new) }
    ensures undecided { result ≡ Err ScriptFault.Read
        → TakesFaultless (I.left input.old) (I.left input.new) }
    ensures unfailed { I.exact → result ≢ Err ScriptFault.Read
        → I.faults input.new ≡ I.faults input.old }
    ensures bad_line { (line : ℕ) → result ≡ Err (ScriptFault.BadLine line)
        → MeetsFault (ScriptFault.BadLine line) (I.left input.old) (I.left input.new) }
    ensures limit { (line : ℕ) → result ≡ Err (ScriptFault.Limit line)
        → MeetsFault (ScriptFault.Limit line) (I.left input.old) (I.left input.new) }

    ensures later { I.faults input.old ≤ I.faults input.new }
{
    let Ok(mut piece) = vec![in alloc; 0u8; PIECE] else {
        return Err(ScriptFault::Host);
    };
    let Ok(mut part) = PartScript::new(alloc) else {
        return Err(ScriptFault::Host);
    };
    loop {
        let Ok(count) = input.read(piece.as_mut_slice()) else {
            return Err(ScriptFault::Read);
        };
        if count == 0 {
            return Ok(part.finish());
        }
        if let Err(fault) = part.feed(&piece[..count]) {
            return Err(fault);
        }
    }
}
