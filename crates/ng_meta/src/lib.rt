//! The metas of groups: where they stand, what their flags say, and their avail words.
#![tactic(auto)]

mod flags;
mod layout;
mod place;
mod word;

pub use flags::{Fields, cells_of, fields_of};
pub use layout::{ACTIVE, AVAIL, FLAGS, FREED, GROUP_HEAD, MEM, METAS, PAGE_BYTES};
pub use place::{area_of, is_meta_place, meta_at};
pub use word::{avail_word, is_secret, mask_of, tag_of};

#[cfg(test)]
mod tests;
