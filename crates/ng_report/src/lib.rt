//! Reports of what came of a plan.
#![tactic(auto)]

mod call_lines;
mod counting;
mod counts;
mod hex;
mod kinds;
mod op_lines;
mod report;
mod room;
mod summary;
#[cfg(test)]
mod tests;
mod text;

pub use report::{count_ops, render, report_room};
pub use text::{put, put_decimal, put_hex};
