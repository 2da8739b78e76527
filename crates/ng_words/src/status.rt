ghost use Rattle.std.specs.Prelude.{◌≡◌, IfOk, string_bytes};
ghost use Rattle.ng_words.specs.Statuses.{line_of, number_of};

use ng_terms::Host;
use std::alloc::{AllocError, Global};

/// How a call of the program ended.
#[derive(Clone, Copy, Debug, PartialEq, Eq)]
pub enum Status {
    /// The whole report was written.
    Done,
    /// The words aren't in the command-line language.
    Usage,
    /// A read of the input failed.
    ReadFault,
    /// The line with this number, from 1, is in a section and isn't a log line.
    BadLine(u64),
    /// The line with this number, from 1, begins a 17th section, is line 1,000,001, or has more than 4096 bytes.
    Limit(u64),
    /// The input has no section.
    NoLog,
    /// A write of the output failed.
    WriteFault,
    /// The host has no memory left.
    Host,
}

impl Status {
    /// The exit status of the program.
    pub fn number(&self) -> u8
        ensures { result ≡ number_of self.now }
    {
        match self {
            Status::Done => 0,
            Status::Usage => 2,
            Status::ReadFault => 3,
            Status::BadLine(_) => 4,
            Status::Limit(_) => 5,
            Status::NoLog => 6,
            Status::WriteFault => 7,
            Status::Host => 8,
        }
    }
}

/// The line that the program prints for a status, with its line feed. It is empty where all went well.
pub fn status_line(alloc: Global, status: &Status) -> Result<String, Host>
    ensures line { IfOk result (λ line. string_bytes line ≡ line_of status.now) }
{
    line_text(alloc, status).map_err(|_| Host)
}

fn line_text(alloc: Global, status: &Status) -> Result<String, AllocError>
    ensures { IfOk result (λ line. string_bytes line ≡ line_of status.now) }
{
    match status {
        Status::Done => Ok(String::new(alloc)),
        Status::Usage => String::from_str(alloc, "mng: usage\n"),
        Status::ReadFault => String::from_str(alloc, "mng: read fault\n"),
        Status::BadLine(line) => format!(in alloc; "mng: line {line}: not a log line\n"),
        Status::Limit(line) => format!(in alloc; "mng: line {line}: limit\n"),
        Status::NoLog => String::from_str(alloc, "mng: no log\n"),
        Status::WriteFault => String::from_str(alloc, "mng: write fault\n"),
        Status::Host => String::from_str(alloc, "mng: no host memory\n"),
    }
}
