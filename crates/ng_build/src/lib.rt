//! The cells of groups and areas, as they are built and cleared under the heap's lock.
#![tactic(auto)]

mod area;
mod clearing;
mod draft;
mod nesting;
mod run;

pub use area::make_area;
pub use clearing::{clear_cells, clear_meta, drop_run};
pub use draft::Draft;
pub use nesting::{Carrier, clear_head, publish_carried, publish_slot, write_head};
pub use run::{publish_mapped, publish_run};
