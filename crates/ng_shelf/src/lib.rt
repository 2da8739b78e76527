//! The bookkeeping of groups: which metas are free, which slot carries a nested group, and how large a new group is.
#![tactic(auto)]

mod free_metas;
mod meta_stock;
mod parents;
mod shape;

pub use free_metas::FreeMetas;
pub use meta_stock::MetaStock;
pub use parents::Parents;
pub use shape::{RunShape, first_active, is_nested_size, raised, run_shape};

#[cfg(test)]
mod tests;
