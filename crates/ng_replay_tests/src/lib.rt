//! Tests of a plan's ops on a heap, in the order of its turns and by a thread for each log. The crate has no other code.
#![tactic(auto)]

#[cfg(test)]
mod tests;
#[cfg(test)]
mod threading_tests;
