//! Blocks put into slots of a hand and taken out of them: the cells that hold a block's frame.
#![tactic(auto)]

mod damage;
mod locating;
mod offset;
mod putting;
mod resizing;
mod taking;
mod trailer;
mod words;

pub use damage::{Damage, find_damage, nominal_size};
pub use locating::{Location, is_marked, locate};
pub use offset::next_offset;
pub use putting::put;
pub use resizing::resize;
pub use taking::take_out;
