ghost use Rattle.std.specs.Prelude.{◌≡◌, ◌≢◌, ◌≤◌, ℕ, [], IfOk, Err};
ghost use Rattle.ng_mtrace.specs.Reads.{ReadsLogs, MeetsFault, TakesFaultless, IsWithinLimits};
ghost use Rattle.ng_terms.specs.Causes.{Rose};

use crate::log::Logs;
use crate::log_fault::LogFault;
use crate::part_read::PartRead;
use crate::stream::Source;
use std::alloc::Global;

/// The bytes that one read asks for.
const PIECE: usize = 65536;

/// Reads an input to its end, or to its first fault.
pub fn read_logs<I: Source>(alloc: Global, input: &mut I) -> Result<Logs, LogFault>
    ensures ok { IfOk result (λ logs. ReadsLogs (I.left input.old) (I.left input.new) logs) }
    ensures limits { IfOk result IsWithinLimits }

    // The first event in the order of the bytes decides: a read that fails behind a fault hides
    // none, and no other answer comes behind a read that failed. Where no log is told, all were read.
    ensures read { result ≡ Err LogFault.Read → Rose (I.faults input.old) (I.faults input.new) }
    ensures undecided { result ≡ Err LogFault.Read
        → TakesFaultless (I.left input.old) (I.left input.new) }
    ensures unfailed { I.exact → result ≢ Err LogFault.Read
        → I.faults input.new ≡ I.faults input.old }
    ensures bad_line { (line : ℕ) → result ≡ Err (LogFault.BadLine line)
        → MeetsFault (LogFault.BadLine line) (I.left input.old) (I.left input.new) }
    ensures limit { (line : ℕ) → result ≡ Err (LogFault.Limit line)
        → MeetsFault (LogFault.Limit line) (I.left input.old) (I.left input.new) }
    ensures no_log { result ≡ Err LogFault.NoLog
        → ReadsLogs (I.left input.old) (I.left input.new) (record { logs = [] }) }

    ensures later { I.faults input.old ≤ I.faults input.new }
{
    let Ok(mut piece) = vec![in alloc; 0u8; PIECE] else {
        return Err(LogFault::Host);
    };
    let Ok(mut part) = PartRead::new(alloc) else {
        return Err(LogFault::Host);
    };
    loop {
        let Ok(count) = input.read(piece.as_mut_slice()) else {
            return Err(LogFault::Read);
        };
        if count == 0 {
            return part.finish();
        }
        if let Err(fault) = part.feed(&piece[..count]) {
            return Err(fault);
        }
    }
}
