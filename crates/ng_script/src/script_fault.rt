/// Why no script was read. Lines are counted from 1.
#[derive(Clone, Copy, Debug, PartialEq, Eq)]
pub enum ScriptFault {
    /// A read failed.
    Read,
    /// The line is in none of the forms, or uses a name that no earlier `m` line has.
    BadLine(u64),
    /// The line is line 1,000,001, or has more than 4096 bytes.
    Limit(u64),
    /// The host has no memory left.
    Host,
}
