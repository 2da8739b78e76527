// The group that a pointer's offset leads to.
ghost use Rattle.std.specs.Prelude.{◌≤◌, IfErr, IfOk, length};
ghost use Rattle.ng_check.specs.Readings.{Fails, Goes, HasGroup, HasHeader};

use crate::fault::PointerFault;
use crate::header::Header;
use crate::reader::Reader;
use ng_meta::{GROUP_HEAD, MEM, PAGE_BYTES, is_meta_place};
use ng_space::{Hand, Name, Space};

/// Where the group begins, its meta, and the index of the pointer's slot.
#[derive(Clone, Copy)]
pub(crate) struct Group {
    pub(crate) base: u64,
    pub(crate) meta: u64,
    pub(crate) index: u32,
}

pub(crate) fn read_group<N: Name>(
    reader: &mut Reader<N>,
    space: &Space<N>,
    hand: &mut Hand<N>,
    header: Header,
) -> Result<Group, PointerFault>
    requires header { HasHeader reader.old header }
    requires few { length reader.old.cells ≤ 2 }
    ensures goes { Goes N.facts.start 4 reader.old hand.old reader.new hand.new }
    ensures ok { IfOk result (HasGroup reader.new header) }
    ensures err { IfErr result (Fails reader.new) }
{
    // The offset has at most 32 bits.
    let back = 16 * header.offset + GROUP_HEAD;
    let base = reader.addr().saturating_sub(back);
    if base < PAGE_BYTES {
        return Err(PointerFault::NotGroup);
    }
    let meta = reader.load_number(space, hand, base);
    if !is_meta_place(meta, reader.pages()) {
        return Err(PointerFault::NotGroup);
    }
    if reader.load_number(space, hand, meta + MEM) != base {
        return Err(PointerFault::NotGroup);
    }
    let index = header.cell / 256 % 32;
    Ok(Group { base, meta, index })
}
