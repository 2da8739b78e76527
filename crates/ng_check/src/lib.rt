//! Checks of a pointer, over the cells of a space while other threads work.
#![tactic(auto)]

mod ending;
mod fault;
mod group;
mod header;
mod probing;
mod reader;
mod seeing;
mod slot;

pub use fault::{BadPointer, Found, PointerFault, Seen};
pub use probing::probe;
