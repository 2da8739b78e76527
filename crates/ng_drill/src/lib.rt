//! A drill: the commands of a script done on a heap by one hand, and their transcript.
#![tactic(auto)]

mod answer;
mod cap;
mod desk;
mod drilling;
mod freeing;
mod lines;
mod room;
mod steps;

pub use answer::{Answer, AtFault, Freed, Malloced, Measured, Written};
pub use cap::cap_of;
pub use drilling::drill;
pub use lines::{render, text_room};
pub use room::Room;
