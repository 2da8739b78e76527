//! In-band headers: the header cell of a block, the trailer behind it, and the cycling offset.
#![tactic(auto)]

mod cycling;
mod header;
mod reading;
mod tail;
mod writing;

pub use cycling::cycle;
pub use header::{Ib, cell_of, ib_of};
pub use reading::{NominalFault, nominal, reserved_of};
pub use tail::Trailer;
pub use writing::trailer;

#[cfg(test)]
mod tests;
