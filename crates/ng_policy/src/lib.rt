//! What decides about groups: how many slots a new one has, whether an empty one is kept, which
//! classes bounce, and when a block goes to the next class.
#![tactic(auto)]

mod ask;
mod bounce;
mod laws;
mod musl;
mod next_class;
mod policy;
mod rules;

pub use ask::{Ask, Spare};
pub use bounce::Bounce;
pub use laws::{
    capped_policy_counts, musl_policy_counts, musl_policy_keeps, stored_count, stored_keep,
};
pub use musl::{musl_count, musl_keep};
pub use next_class::coarse;
pub use policy::Policy;
pub use rules::{Kept, Rules};

#[cfg(test)]
mod tests;
