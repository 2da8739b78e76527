ghost use Rattle.std.specs.Prelude.{◌≡◌, ◌<◌, ◌≤◌, ◌+◌, ◌*◌, ◌%◌, ◌^◌};
ghost use Rattle.ng_class.specs.Slot.{IsGroupClass, stride_of, room_of, start_at, end_at};

use crate::class::{IB, LONE, UNIT, units};

/// The bytes of a page.
const PAGE: u64 = 4096;

/// The bytes from the start of a slot to the start of the next, for a group of this class with the
/// slots 0 to `last`, in a run of `maplen` pages (0 where the group has no run of its own). A slot
/// that is alone in a run has all of it, but for 16 bytes; others have the class size.
#[tactic(auto, using(crate::proofs::Slots::strides))]
pub fn stride(class: u32, last: u32, maplen: u64) -> u64
    requires class { IsGroupClass class last maplen }
    requires last { last < 32 }
    requires maplen { maplen ≤ 16384 }
    ensures value { result ≡ stride_of class last maplen }
    ensures least { 16 ≤ result }
    ensures bound { result < 2 ^ 26 }
    ensures aligned { result % 16 ≡ 0 }
{
    if last == 0 && maplen > 0 {
        maplen * PAGE - UNIT
    } else {
        UNIT * units(class)
    }
}

/// The bytes from the start of a slot on in which a block may be placed, for the same group: the
/// stride, but for a class below 48 no more than the class size.
#[tactic(auto, using(crate::proofs::Slots::rooms))]
pub fn room(class: u32, last: u32, maplen: u64) -> u64
    requires class { IsGroupClass class last maplen }
    requires last { last < 32 }
    requires maplen { maplen ≤ 16384 }
    ensures value { result ≡ room_of class last maplen }
    ensures least { 16 ≤ result }
    ensures within { result ≤ stride_of class last maplen }
{
    let stride = stride(class, last, maplen);
    if class == LONE {
        stride
    } else {
        stride.min(UNIT * units(class))
    }
}

/// The address of the slot's first byte, for slots that begin at `storage`.
pub fn slot_start(storage: u64, stride: u64, index: u32) -> u64
    requires { storage + stride * index < 2 ^ 64 }
    ensures { result ≡ start_at storage stride index }
{
    storage + stride * u64::from(index)
}

/// The address after the slot's last byte, which is that of the next slot's header cell.
pub fn slot_end(storage: u64, stride: u64, index: u32) -> u64
    requires stride { 16 ≤ stride }
    requires fits { storage + stride * index + stride < 2 ^ 64 }
    ensures { result ≡ end_at storage stride index }
{
    slot_start(storage, stride, index) + stride - IB
}
