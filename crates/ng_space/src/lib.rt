//! The space of a heap: its cells, the hands that step on them, and the seat under the lock.
#![tactic(auto)]

mod blank;
mod block;
mod close;
mod excuse;
mod fetch;
mod first_page;
mod giving;
mod hand;
mod image;
mod load;
mod lock;
mod lock_groups;
mod lock_masks;
mod lock_notes;
mod lock_pages;
mod mask_step;
mod name;
mod parcel;
mod passing;
mod rule;
mod slot;
mod space;
mod step;

pub use blank::Blank;
pub use block::Block;
pub use excuse::Excuse;
pub use hand::Hand;
pub use image::Image;
pub use lock::LockSeat;
pub use name::Name;
pub use ng_history::{Book, Entry, Host};
pub use ng_view::view::Start;
pub use parcel::Parcel;
pub use slot::Slot;
pub use space::Space;

#[cfg(test)]
mod tests;
