//! The census of a plan: what its logs hold, without a heap.
#![tactic(auto)]

mod counting;
mod counts;
mod lines;

pub use lines::{CENSUS, render};

#[cfg(test)]
mod tests;
