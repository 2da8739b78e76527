// The header in front of a pointer.
ghost use Rattle.std.specs.Prelude.{◌≡◌, ◌≤◌, [], IfErr, IfOk, IfSome, IsNone};
ghost use Rattle.ng_check.specs.Readings.{Fails, Goes, HasCell, HasHeader, IsPlaced};

use crate::fault::PointerFault;
use crate::reader::Reader;
use ng_space::{Hand, Name, Space};

/// The bytes of a page, and so the first address behind page 0.
const PAGE: u64 = 4096;

/// The header cell, and the pointer's offset from the group's first slot in units of 16 bytes.
#[derive(Clone, Copy)]
pub(crate) struct Header {
    pub(crate) cell: u32,
    pub(crate) offset: u64,
}

pub(crate) fn read_header<N: Name>(
    reader: &mut Reader<N>,
    space: &Space<N>,
    hand: &mut Hand<N>,
) -> Result<Header, PointerFault>
    requires fresh { reader.old.cells ≡ [] }
    requires some { 1 ≤ reader.old.pages }
    ensures goes { Goes N.facts.start 2 reader.old hand.old reader.new hand.new }
    ensures cell { HasCell reader.new }
    ensures ok { IfOk result (HasHeader reader.new) }
    ensures err { IfErr result (Fails reader.new) }
{
    if let Some(fault) = misplaced(reader) {
        // A step tells that no block of the hand is there.
        reader.load(space, hand, 0);
        return Err(fault);
    }
    let addr = reader.addr();
    let cell = reader.load(space, hand, addr - 4);
    let field = u64::from(cell / 65536);
    if cell % 256 == 0 {
        return Ok(Header {
            cell,
            offset: field,
        });
    }
    let wide = u64::from(reader.load(space, hand, addr - 8));
    if field != 0 || wide <= 65535 {
        return Err(PointerFault::BadWide);
    }
    Ok(Header { cell, offset: wide })
}

// What is wrong with the place of a pointer.
fn misplaced<N: Name>(reader: &Reader<N>) -> Option<PointerFault>
    ensures some { IfSome result (Fails reader.now) }
    ensures none { IsNone result → IsPlaced reader.now }
{
    let addr = reader.addr();
    if addr % 16 != 0 {
        return Some(PointerFault::Misaligned);
    }
    if addr < PAGE || addr >= PAGE * u64::from(reader.pages()) {
        return Some(PointerFault::Outside);
    }
    None
}
