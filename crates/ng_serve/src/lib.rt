//! Freed slots of live groups under the lock: the choice of a group in a ring, and the slots that
//! come out of its freed mask and go back.
#![tactic(auto)]

mod choosing;
mod group;
mod putting;
mod taking;

pub use choosing::{Choice, choose};
pub use group::{LiveGroup, activate, active_index, group_of, group_of_slot};
pub use putting::{put_bits, put_captured, put_slot};
pub use taking::{stock_freed, take_freed};
