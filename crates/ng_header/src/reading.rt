ghost use Rattle.std.specs.Prelude.{◌-◌, ◌<◌, ◌≡◌, ◌≢◌, ◌≤◌, ◌↔◌, IfErr, IfOk};
ghost use Rattle.ng_header.specs.Reading.{IsBadReserved, IsEndByte, IsOverrun};
ghost use Rattle.ng_header.specs.Reading.{nominal_in, reserved_by, reserved_in};

/// What is wrong with the bytes behind a block.
#[derive(Clone, Copy, Debug, PartialEq, Eq)]
pub enum NominalFault {
    /// The header and the last bytes tell no reserved number, or one above the gap.
    BadReserved,
    /// The first reserved byte isn't 0.
    Overrun,
    /// The byte at the slot's end isn't 0.
    EndByte,
}

/// How many bytes lie between a block's own last byte and its slot's end, as its header tells.
///
/// `field` is the header's reserved field, `word` the number in the last four bytes before the
/// end, `fifth` the byte before these, and `gap` the bytes from the block's address to the end.
pub fn reserved_of(field: u32, word: u32, fifth: u8, gap: u64) -> Result<u64, NominalFault>
    requires { field < 8 }
    ensures value { result ≡ reserved_in field word fifth gap }
    ensures ok { IfOk result (λ reserved. reserved ≡ reserved_by field word) }
    ensures within { IfOk result (λ reserved. reserved ≤ gap) }

    ensures bad { (result ≡ Err NominalFault.BadReserved) ↔ IsBadReserved field word fifth gap }
    ensures only { IfErr result (λ fault. fault ≡ NominalFault.BadReserved) }
{
    let reserved = match field {
        0..=4 => field,
        5 if word >= 5 && fifth == 0 => word,
        _ => return Err(NominalFault::BadReserved),
    };
    if u64::from(reserved) > gap {
        return Err(NominalFault::BadReserved);
    }
    Ok(u64::from(reserved))
}

/// The length of a block, by the bytes from its address to its slot's end and the reserved ones.
///
/// `mark` is the byte that lies `reserved` bytes before the end, and `last` the byte at the end.
pub fn nominal(gap: u64, reserved: u64, mark: u8, last: u8) -> Result<u64, NominalFault>
    requires { reserved ≤ gap }
    ensures value { result ≡ nominal_in gap reserved mark last }
    ensures ok { IfOk result (λ size. size ≡ gap - reserved) }

    // An overrun is told before what is at the end.
    ensures overrun { (result ≡ Err NominalFault.Overrun) ↔ IsOverrun reserved mark }
    ensures end_byte { (result ≡ Err NominalFault.EndByte) ↔ IsEndByte reserved mark last }
    ensures never { result ≢ Err NominalFault.BadReserved }
{
    if reserved > 0 && mark != 0 {
        return Err(NominalFault::Overrun);
    }
    if last != 0 {
        return Err(NominalFault::EndByte);
    }
    Ok(gap - reserved)
}
