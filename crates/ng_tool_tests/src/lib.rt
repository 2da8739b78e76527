//! Tests of the top calls: what the commands write, and how they end. The crate has no other code.
#![tactic(auto)]

#[cfg(test)]
mod calls;
#[cfg(test)]
mod check_tests;
#[cfg(test)]
mod choices;
#[cfg(test)]
mod drill_tests;
#[cfg(test)]
mod example;
#[cfg(test)]
mod fault_tests;
#[cfg(test)]
mod make_tests;
#[cfg(test)]
mod replay_tests;
#[cfg(test)]
mod serial_tests;
