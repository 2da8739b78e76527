//! What the seats of a heap know, and the rule that holds over all words and all views between any two atomic steps. The crate has definitions, and no code.
#![tactic(auto)]

pub mod view;
