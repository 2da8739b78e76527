//! A heap over the space: blocks given and taken back, under the core's lock or without it.
#![tactic(auto)]

mod asking;
mod calloc;
mod freeing;
mod freeing_at;
mod heap;
mod looking;
mod malloc;
mod quick;
mod sending;
mod shared;

pub use freeing::Unlocked;
pub use freeing_at::AtRefusal;
pub use heap::Heap;
pub use ng_check::{BadPointer, Found, PointerFault, Seen};
pub use ng_frame::Damage;
pub use ng_mask::Needs;
pub use ng_space::Parcel;
pub use ng_terms::AllocRefusal;
pub use quick::Quick;
pub use shared::SharedHeap;
