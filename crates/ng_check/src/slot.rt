// The slot of a group that a pointer is said to be in.
ghost use Rattle.std.specs.Prelude.{◌≡◌, ◌≤◌, ◌<◌, ◌==◌, IfErr, IfOk, length};
ghost use Rattle.std.specs.Int.{bit_at};
ghost use Rattle.ng_meta.specs.Flags.{IsInRange};
ghost use Rattle.ng_check.specs.Queries.{is_class};
ghost use Rattle.ng_check.specs.Checks.{is_bad_offset};
ghost use Rattle.ng_check.specs.Readings.{Fails, Goes, HasGroup, HasSlot, IsListed};

use crate::fault::PointerFault;
use crate::group::Group;
use crate::header::Header;
use crate::reader::Reader;
use ng_class::{LONE, units};
use ng_meta::{AVAIL, FLAGS, FREED, Fields, area_of, fields_of};
use ng_space::{Hand, Name, Space};

/// The number of classes below that of a lone block.
const CLASSES: u32 = 48;

pub(crate) fn read_slot<N: Name>(
    reader: &mut Reader<N>,
    space: &Space<N>,
    hand: &mut Hand<N>,
    header: Header,
    group: Group,
) -> Result<Fields, PointerFault>
    requires group { HasGroup reader.old header group }
    requires few { length reader.old.cells ≤ 6 }
    ensures goes { Goes N.facts.start 6 reader.old hand.old reader.new hand.new }
    ensures ok { IfOk result (HasSlot reader.new header group) }
    ensures err { IfErr result (Fails reader.new) }
{
    let fields = read_masks(reader, space, hand, header, group)?;
    let secret = reader.load_number(space, hand, area_of(group.meta));
    if secret != reader.secret() {
        return Err(PointerFault::BadSecret);
    }
    if is_offset_bad(fields, group.index, header.offset) {
        return Err(PointerFault::BadOffset);
    }
    if !is_known_class(fields) {
        return Err(PointerFault::BadClass);
    }
    if fields.maplen > 0 && header.offset > fields.maplen * 256 - 1 {
        return Err(PointerFault::BadMaplen);
    }
    Ok(fields)
}

// The group's fields, of which the index is one and in neither mask.
fn read_masks<N: Name>(
    reader: &mut Reader<N>,
    space: &Space<N>,
    hand: &mut Hand<N>,
    header: Header,
    group: Group,
) -> Result<Fields, PointerFault>
    requires group { HasGroup reader.old header group }
    requires few { length reader.old.cells ≤ 6 }
    ensures goes { Goes N.facts.start 4 reader.old hand.old reader.new hand.new }
    ensures ok { IfOk result (IsListed reader.new header group) }
    ensures range { IfOk result IsInRange }
    ensures err { IfErr result (Fails reader.new) }
{
    let Group { meta, index, .. } = group;
    let low = reader.load(space, hand, meta + FLAGS);
    let high = reader.load(space, hand, meta + FLAGS + 4);
    let fields = fields_of(low, high);
    if index > fields.last {
        return Err(PointerFault::BadIndex);
    }
    if has_bit(reader.load(space, hand, meta + AVAIL), index) {
        return Err(PointerFault::Available);
    }
    if has_bit(reader.load(space, hand, meta + FREED), index) {
        return Err(PointerFault::Freed);
    }
    Ok(fields)
}

fn has_bit(mask: u32, bit: u32) -> bool
    requires { bit < 32 }
    ensures { result ≡ (bit_at mask bit == 1) }
{
    mask >> bit & 1 == 1
}

// Whether an offset is outside of the slot of that index, for a class below 48.
fn is_offset_bad(fields: Fields, index: u32, offset: u64) -> bool
    requires { index < 32 }
    ensures { result ≡ is_bad_offset index offset fields }
{
    if fields.class >= CLASSES {
        return false;
    }
    let units = units(fields.class);
    let first = units * u64::from(index);
    offset < first || offset >= first + units
}

// Whether the class is one of groups with these fields.
pub(crate) fn is_known_class(fields: Fields) -> bool
    ensures { result ≡ is_class fields }
{
    fields.class < CLASSES || fields.class == LONE && fields.last == 0 && fields.maplen > 0
}
