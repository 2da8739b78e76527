//! Histories: entries, and the book of one caller.
#![tactic(auto)]

mod book;
mod legal;
mod live;
#[cfg(test)]
mod tests;

pub use book::Book;
pub use live::Live;
pub use ng_terms::{Entry, Extent, Host, LARGE};
