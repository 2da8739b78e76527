//! The language of a drill: a script of lines that is done on a heap, and its reader.
#![tactic(auto)]

mod command;
mod line;
mod names;
mod part_script;
mod place;
mod reading;
mod script;
mod script_fault;
mod value;

pub use command::{Command, Place, Shift};
pub use ng_terms::Items;
pub use reading::read_script;
pub use script::Script;
pub use script_fault::ScriptFault;
pub use value::number;

#[cfg(test)]
mod tests;
