//! The top calls: what the program's commands do, from their words and an input to what is written.
#![tactic(auto)]

mod asked;
mod beside;
mod call;
mod closed;
mod commands;
mod drilling;
mod ending;
mod fresh;
mod job;
mod performing;
mod prepare;
mod replaying;
mod run;
mod scripting;

pub use closed::Closed;
pub use commands::tool;
pub use replaying::replay;
