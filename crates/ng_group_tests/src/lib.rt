//! Tests of the core's calls together: slots that come and go, refused calls, and random calls beside a model's digests.
//! The crate has no other code.
#![tactic(auto)]

#[cfg(test)]
mod cell_tests;
#[cfg(test)]
mod heaps;
#[cfg(test)]
mod random_tests;
#[cfg(test)]
mod slot_tests;
