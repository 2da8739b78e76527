//! Tests of a heap's calls: blocks given, taken back and sent, under the lock and without it, by one thread and by two.
//! The crate has no other code.
#![tactic(auto)]

#[cfg(test)]
mod area_tests;
#[cfg(test)]
mod beside_tests;
#[cfg(test)]
mod content_tests;
#[cfg(test)]
mod lock_tests;
#[cfg(test)]
mod quick_tests;
#[cfg(test)]
mod shared_tests;
#[cfg(test)]
mod tests;
