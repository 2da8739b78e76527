//! A mapper over a mapper, with a limit on the live pages.
#![tactic(auto)]

mod quota;

pub use quota::Quota;

#[cfg(test)]
mod tests;
