/// A line of a script. A name is known by its number: its place, from 0, among the names in the
/// order of their first `m` lines.
#[derive(Clone, Copy, Debug, PartialEq, Eq)]
pub enum Command {
    /// `m`: so many bytes are asked for, and the name gets the address.
    Malloc { name: u32, size: u64 },
    /// `f`: an address is freed.
    Free { place: Place },
    /// `w`: a byte is written, so far behind the name's address. It is below 256.
    Write { name: u32, offset: u64, byte: u8 },
    /// `u`: the usable size at the name's address.
    Usable { name: u32 },
}

/// An address: itself, or so far from that of a name.
#[derive(Clone, Copy, Debug, PartialEq, Eq)]
pub enum Place {
    At(u64),
    Named { name: u32, shift: Shift },
}

/// How many bytes an address lies above or below that of a name. A plain name is `Up(0)`.
#[derive(Clone, Copy, Debug, PartialEq, Eq)]
pub enum Shift {
    Up(u64),
    Down(u64),
}
