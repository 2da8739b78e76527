//! Where the heap's core takes runs and metas from: its mapper and its stock of metas.
#![tactic(auto)]

mod meta;
mod run;

pub use meta::find_meta;
pub use run::map_run;
