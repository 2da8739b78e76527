ghost use Rattle.std.specs.Prelude.{◌≡◌};
ghost use Rattle.ng_header.specs.Header.{IsInRange, cell_with, ib_in};

/// The fields of the in-band header of an address p: the cell at p - 4.
#[derive(Clone, Copy, Debug, PartialEq, Eq)]
pub struct Ib {
    /// 0 for an offset in the cell itself; else the offset is the 32-bit number at p - 8.
    pub check: u8,
    /// The index of the slot, below 32.
    pub index: u32,
    /// The field of the reserved bytes, below 8.
    pub reserved: u32,
    /// From the storage to p in units of 16 bytes, below 65536; 0 for a wide offset.
    pub offset: u32,
}

/// The fields of a header cell.
pub fn ib_of(cell: u32) -> Ib
    ensures fields { result ≡ ib_in cell }
    ensures in_range { IsInRange result }
    ensures inverse { cell_with result ≡ cell }
{
    Ib {
        check: (cell & 0xff) as u8,
        index: cell >> 8 & 31,
        reserved: cell >> 13 & 7,
        offset: cell >> 16,
    }
}

/// The header cell with these fields.
pub fn cell_of(ib: Ib) -> u32
    requires { IsInRange ib }
    ensures cell { result ≡ cell_with ib }
    ensures inverse { ib_in result ≡ ib }
{
    u32::from(ib.check) | ib.index << 8 | ib.reserved << 13 | ib.offset << 16
}
