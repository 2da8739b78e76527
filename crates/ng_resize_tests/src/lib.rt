//! Tests of blocks that get another length, where they stand or by a move, and of blocks with an align. The crate has no
//! other code.
#![tactic(auto)]

#[cfg(test)]
mod tests;
