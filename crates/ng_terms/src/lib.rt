//! The terms that all crates share: definitions that contracts cite, and the few types that they speak of.
#![tactic(auto)]

pub mod entry;
pub mod host;
pub mod items;
pub mod plan;
pub mod refusal;
pub mod reply;

pub use entry::{Entry, Extent, LARGE};
pub use host::Host;
pub use items::Items;
pub use plan::{Op, Origin, Plan};
pub use refusal::AllocRefusal;
pub use reply::{Made, Mode, Reply};
