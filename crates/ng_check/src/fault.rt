ghost use Rattle.std.specs.Prelude.{◌≡◌};
ghost use Rattle.ng_check.specs.Answers.{number_of};

/// What is wrong with a pointer: the first check that fails, in their order.
#[derive(Clone, Copy, Debug, PartialEq, Eq)]
pub enum PointerFault {
    /// The address isn't a multiple of 16.
    Misaligned,
    /// The address is in page 0 or not in the space.
    Outside,
    /// The header says that the offset stands in the cell before it, but it has one of its own, or
    /// that one is no more than 65535.
    BadWide,
    /// No group begins where the offset says.
    NotGroup,
    /// The slot's index is above the group's last.
    BadIndex,
    /// The slot is in the group's avail mask.
    Available,
    /// The slot is in the group's freed mask.
    Freed,
    /// The page of the group's meta doesn't begin with the secret.
    BadSecret,
    /// The address isn't one of the slot's.
    BadOffset,
    /// The class is none of groups.
    BadClass,
    /// The address is behind the group's pages.
    BadMaplen,
    /// The slot ends outside the space, or its header and last bytes tell no reserved number, or
    /// one above the bytes from the address to the slot's end.
    BadReserved,
    /// The first byte behind the block isn't 0.
    Overrun,
    /// The byte at the slot's end isn't 0.
    EndByte,
}

impl PointerFault {
    /// Its number, from 1 to 14.
    pub fn number(self) -> u32
        ensures { result ≡ number_of self }
    {
        match self {
            PointerFault::Misaligned => 1,
            PointerFault::Outside => 2,
            PointerFault::BadWide => 3,
            PointerFault::NotGroup => 4,
            PointerFault::BadIndex => 5,
            PointerFault::Available => 6,
            PointerFault::Freed => 7,
            PointerFault::BadSecret => 8,
            PointerFault::BadOffset => 9,
            PointerFault::BadClass => 10,
            PointerFault::BadMaplen => 11,
            PointerFault::BadReserved => 12,
            PointerFault::Overrun => 13,
            PointerFault::EndByte => 14,
        }
    }
}

/// What was read for a check. Each field is 0 where it wasn't read.
#[derive(Clone, Copy, Debug, PartialEq, Eq)]
pub struct Seen {
    /// The cell in front of the address, and the one before it.
    pub header: u32,
    pub wide: u32,
    /// The number at the group's base, and of the meta there its mem, flags and masks.
    pub meta: u64,
    pub mem: u64,
    pub flags: u64,
    pub avail: u32,
    pub freed: u32,
    /// The number at the start of the meta's page.
    pub check: u64,
    /// The last cell before the slot's end, and the byte before that.
    pub word: u32,
    pub fifth: u8,
    /// The first reserved byte, and the byte at the slot's end.
    pub mark: u8,
    pub last: u8,
}

/// A pointer that a check refused, with what was read.
#[derive(Clone, Copy, Debug, PartialEq, Eq)]
pub struct BadPointer {
    pub fault: PointerFault,
    pub seen: Seen,
}

/// The slot of a pointer that passed each check: its group's meta, its index, where it begins and
/// ends, and the block's length.
#[derive(Clone, Copy, Debug, PartialEq, Eq)]
pub struct Found {
    pub meta: u64,
    pub index: u32,
    pub start: u64,
    pub end: u64,
    pub len: u64,
}
