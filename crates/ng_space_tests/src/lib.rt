//! Tests of the space's calls together: a group that comes to live and ends, and one that threads race for. The crate has no other code.
#![tactic(auto)]

#[cfg(test)]
mod page;
#[cfg(test)]
mod pair_tests;
#[cfg(test)]
mod race_tests;
