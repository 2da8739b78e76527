//! Generated logs.
#![tactic(auto)]

mod generator;
mod made;

pub use made::made_logs;

#[cfg(test)]
mod tests;
