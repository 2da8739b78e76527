//! The command line: the words of a command and what they ask, and what the program says of how it ended.
#![tactic(auto)]

mod asked;
mod clap_commands;
mod meaning;
mod numbers;
mod reading;
mod status;
mod texts;
mod verb;

pub use asked::{Command, Setup};
pub use numbers::Numbers;
pub use reading::{command, setup};
pub use status::{Status, status_line};
pub use verb::Verb;

#[cfg(test)]
mod tests;
