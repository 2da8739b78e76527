//! The core of a heap: groups built, served, returned and torn down, under the heap's lock.
#![tactic(auto)]

mod asking;
mod building;
mod class_for;
mod ending;
mod heap_core;
mod lone;
mod returning;
mod serving;
mod tables;
mod words;
mod works;

pub use heap_core::Core;
pub use tables::Tables;
