// The end of a pointer's slot, and what stands before it.
ghost use Rattle.std.specs.Prelude.{◌≡◌, ◌≤◌, ◌<◌, IfErr, IfOk, length};
ghost use Rattle.ng_meta.specs.Flags.{IsInRange};
ghost use Rattle.ng_check.specs.Readings.{Fails, Goes, HasEnd, HasReserved, HasSlot, Passes, bounds_in, is_longer_than};

use crate::fault::{Found, PointerFault};
use crate::group::Group;
use crate::header::Header;
use crate::reader::Reader;
use crate::slot::is_known_class;
use ng_class::{slot_end, slot_start, stride};
use ng_header::reserved_of;
use ng_meta::{Fields, GROUP_HEAD, PAGE_BYTES};
use ng_space::{Hand, Name, Space};

/// The most pages that a space has.
const MOST_PAGES: u64 = 16384;

/// Where a slot begins and ends.
#[derive(Clone, Copy)]
pub(crate) struct Bounds {
    pub(crate) start: u64,
    pub(crate) end: u64,
}

pub(crate) fn read_end<N: Name>(
    reader: &mut Reader<N>,
    space: &Space<N>,
    hand: &mut Hand<N>,
    header: Header,
    group: Group,
    fields: Fields,
) -> Result<Found, PointerFault>
    requires slot { HasSlot reader.old header group fields }
    requires few { length reader.old.cells ≤ 12 }
    ensures goes { Goes N.facts.start 4 reader.old hand.old reader.new hand.new }
    ensures ok { IfOk result (Passes reader.new) }
    ensures err { IfErr result (Fails reader.new) }
{
    let Some(Bounds { start, end }) = bounds_of(group.base, group.index, fields, reader.pages())
    else {
        return Err(PointerFault::BadReserved);
    };
    if end < reader.addr() {
        return Err(PointerFault::BadReserved);
    }
    let reserved = read_reserved(reader, space, hand, header, group, fields, end)?;
    if reserved > 0 && reader.load_byte(space, hand, end - reserved) != 0 {
        return Err(PointerFault::Overrun);
    }
    if reader.load_byte(space, hand, end) != 0 {
        return Err(PointerFault::EndByte);
    }
    Ok(Found {
        meta: group.meta,
        index: group.index,
        start,
        end,
        len: end - reader.addr() - reserved,
    })
}

// The bounds of a slot, where the class is one of groups and the slot ends in the space.
pub(crate) fn bounds_of(base: u64, index: u32, fields: Fields, pages: u32) -> Option<Bounds>
    requires index { index < 32 }
    requires pages { pages ≤ 16384 }
    requires range { IsInRange fields }
    ensures { result ≡ bounds_in pages base index fields }
{
    let bytes = PAGE_BYTES * u64::from(pages);
    if !is_known_class(fields) || base >= bytes || is_longer(fields, pages) {
        return None;
    }
    let stride = stride(fields.class, fields.last, fields.maplen.min(MOST_PAGES));
    let storage = base + GROUP_HEAD;
    let start = slot_start(storage, stride, index);
    let end = slot_end(storage, stride, index);
    if end < bytes {
        Some(Bounds { start, end })
    } else {
        None
    }
}

// Whether a group is one slot with more pages than the space has.
fn is_longer(fields: Fields, pages: u32) -> bool
    ensures { result ≡ is_longer_than pages fields }
{
    fields.last == 0 && fields.maplen > u64::from(pages)
}

// The reserved number, by the header's field and the last bytes before the slot's end.
fn read_reserved<N: Name>(
    reader: &mut Reader<N>,
    space: &Space<N>,
    hand: &mut Hand<N>,
    header: Header,
    group: Group,
    fields: Fields,
    end: u64,
) -> Result<u64, PointerFault>
    requires slot { HasSlot reader.old header group fields }
    requires end { HasEnd reader.old end }
    requires few { length reader.old.cells ≤ 12 }
    ensures goes { Goes N.facts.start 2 reader.old hand.old reader.new hand.new }
    ensures ok { IfOk result (HasReserved reader.new end) }
    ensures err { IfErr result (Fails reader.new) }
{
    let field = header.cell / 8192 % 8;
    let gap = end - reader.addr();
    let reserved = if field == 5 {
        let word = reader.load(space, hand, end - 4);
        let fifth = reader.load_byte(space, hand, end - 5);
        reserved_of(field, word, fifth, gap)
    } else {
        reserved_of(field, 0, 0, gap)
    };
    match reserved {
        Ok(reserved) => Ok(reserved),
        Err(_) => Err(PointerFault::BadReserved),
    }
}
