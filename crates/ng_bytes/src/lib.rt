//! The bytes of blocks: they are read, written, cleared and copied.
#![tactic(auto)]

mod byte;
mod cell;
mod clearing;
mod copying;
mod reading;
mod writing;

pub use byte::store_byte;
pub use clearing::clear;
pub use copying::copy;
pub use reading::read;
pub use writing::write;
