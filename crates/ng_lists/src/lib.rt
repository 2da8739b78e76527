//! The rings of groups: for each size class, the metas of its groups in cyclic order.
#![tactic(auto)]

mod links;
mod place;
mod rings;
mod zeros;

pub use place::{address_of, index_of};
pub use rings::{CLASSES, Rings};
pub use zeros::{meta_zero_bytes, meta_zeros};

#[cfg(test)]
mod tests;
