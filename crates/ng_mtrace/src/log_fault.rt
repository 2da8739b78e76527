/// Why no logs were read. Lines are counted from 1.
#[derive(Clone, Copy, Debug, PartialEq, Eq)]
pub enum LogFault {
    /// A read failed.
    Read,
    /// The line is in a section and in none of the forms.
    BadLine(u64),
    /// The line begins a 17th section, is line 1,000,001, or has more than 4096 bytes.
    Limit(u64),
    /// No line begins a section.
    NoLog,
    /// The host has no memory left.
    Host,
}
