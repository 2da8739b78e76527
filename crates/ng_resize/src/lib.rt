//! Blocks that get another length, where they stand or by a move, and blocks with an align.
#![tactic(auto)]

mod aligning;
mod fitting;
mod looking;
mod moving;
mod refusal;
mod resizing;
mod sharing;

pub use aligning::aligned_in;
pub use refusal::{AlignRefusal, ResizeRefusal};
pub use resizing::realloc_in;
pub use sharing::{aligned_alloc, realloc};
