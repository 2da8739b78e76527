//! Slots out of and into the masks of a group, without the heap's lock and under it.
#![tactic(auto)]

mod fetching;
mod outcome;
mod popping;
mod pushing;

pub use fetching::{capture, pop_core, stock, take};
pub use outcome::{Needs, Pop, Push};
pub use popping::pop;
pub use pushing::push;

#[cfg(test)]
mod tests;
