ghost use Rattle.std.specs.Prelude.{◌≡◌, ◌≤◌, [], IfErr, IfOk};
ghost use Rattle.ng_space.specs.Leaving.{KeepsBook, LeavesAll};
ghost use Rattle.ng_check.specs.Answers.{Checks, JudgesOwn};
ghost use Rattle.ng_check.specs.Readings.{Fails, Goes, HasCell, Passes};

use crate::ending::read_end;
use crate::fault::{BadPointer, Found, PointerFault};
use crate::group::read_group;
use crate::header::read_header;
use crate::reader::Reader;
use crate::seeing::see;
use crate::slot::read_slot;
use ng_space::{Hand, Name, Space};

/// Checks a pointer by the cells round it, its group's and its meta's, which are loaded one after
/// the other while other threads may store there: the slot that it is in with the length of its
/// block, or the first check that fails. Nothing is stored. The secret is the one that the first
/// cells of the meta's page are to have.
pub fn probe<N: Name>(
    space: &Space<N>,
    hand: &mut Hand<N>,
    secret: u64,
    addr: u64,
) -> Result<Found, BadPointer>
    // The answer is by the cells that were loaded, each once.
    ensures checks { Checks N.facts.start.pages secret addr hand.old.view result hand.new.view }

    // A block of the hand is judged by its own cells alone, whatever other hands do.
    ensures own { JudgesOwn N.facts.start.secret secret addr hand.old result hand.new }

    ensures leaves { LeavesAll hand.old.view hand.new.view }
    ensures book { KeepsBook hand.old hand.new }
{
    let mut reader = Reader::new(space, secret, addr);
    match check(&mut reader, space, hand) {
        Ok(found) => Ok(found),
        Err(fault) => Err(BadPointer {
            fault,
            seen: see(&reader),
        }),
    }
}

// The checks in their order.
fn check<N: Name>(
    reader: &mut Reader<N>,
    space: &Space<N>,
    hand: &mut Hand<N>,
) -> Result<Found, PointerFault>
    requires fresh { reader.old.cells ≡ [] }
    requires some { 1 ≤ reader.old.pages }
    ensures goes { Goes N.facts.start 16 reader.old hand.old reader.new hand.new }
    ensures cell { HasCell reader.new }
    ensures ok { IfOk result (Passes reader.new) }
    ensures err { IfErr result (Fails reader.new) }
{
    let header = read_header(reader, space, hand)?;
    let group = read_group(reader, space, hand, header)?;
    let fields = read_slot(reader, space, hand, header, group)?;
    read_end(reader, space, hand, header, group, fields)
}
