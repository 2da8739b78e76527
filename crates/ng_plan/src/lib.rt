//! Plans of logs: which block each op takes, what is handed to another log, and whose turn comes
//! next.
#![tactic(auto)]

mod mentions;
mod names;
mod numbers;
mod ops;
mod own;
mod planning;
mod queues;
mod rounds;
mod schedule;
mod slots;
mod step;
mod steps;

pub use ng_terms::{Op, Origin, Plan};
pub use planning::plan;

#[cfg(test)]
mod tests;
