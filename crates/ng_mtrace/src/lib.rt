//! Sources and sinks of bytes, and the reader of allocation logs.
#![tactic(auto)]

mod bytes_in;
mod bytes_out;
mod input;
mod kind;
mod log;
mod log_fault;
mod logs;
mod number;
mod output;
mod part_read;
mod plain;
mod sections;
mod stream;
mod text;
mod token;
mod writing;

pub use bytes_in::BytesIn;
pub use bytes_out::BytesOut;
pub use input::Input;
pub use log::{Line, Log, Logs};
pub use log_fault::LogFault;
pub use logs::read_logs;
pub use ng_terms::Items;
pub use output::Output;
pub use stream::{Failed, Sink, Source};
pub use text::{cut_at, is_word};
pub use token::last_token;
pub use writing::write_all;

#[cfg(test)]
mod log_tests;
#[cfg(test)]
mod tests;
