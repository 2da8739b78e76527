ghost use Rattle.std.specs.Prelude.{◌≡◌, OnOk, OnErr};
ghost use Rattle.ng_mtrace.specs.Streams.{added, WritesPart};
ghost use Rattle.ng_terms.specs.Causes.{HasCause};

use crate::stream::{Failed, Sink};

/// Writes all the bytes, or a beginning of them where a write fails.
pub fn write_all<O: Sink>(out: &mut O, bytes: &[u8]) -> Result<(), Failed>
    ensures ok { OnOk result (O.written out.new ≡ added (O.written out.old) bytes.now) }
    ensures err { OnErr result (WritesPart (O.written out.old) (O.written out.new) bytes.now) }
    ensures cause { HasCause (O.faults out.old) (O.faults out.new) result }
{
    let mut at = 0;
    while at < bytes.len() {
        let count = out.write(&bytes[at..])?;
        at += count;
    }
    Ok(())
}
