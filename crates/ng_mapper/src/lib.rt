//! What hands out page runs of the modelled address space.
#![tactic(auto)]

mod first_fit;
mod hole;
mod mapper;
mod refusals;
mod run_list;

pub use first_fit::FirstFit;
pub use mapper::{Mapper, Refused};
pub use refusals::Refusals;

#[cfg(test)]
mod tests;
