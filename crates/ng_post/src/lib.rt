//! Mailboxes between threads: what a log posts under a number, the number's receiver collects. Each
//! log has a box, out of which it takes its mail, and a door to all boxes.
#![tactic(auto)]

mod boxes;
mod collecting;
mod ending;
mod mail;
mod opening;
mod posting;
mod rule;
mod view;

pub use boxes::{Boxes, Door};
pub use ending::finish;
pub use mail::Mail;
pub use opening::open;

#[cfg(test)]
mod tests;
