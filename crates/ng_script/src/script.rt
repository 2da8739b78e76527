use crate::command::Command;
use ng_terms::Items;

/// The commands of a script, in order, and how many names it has.
#[derive(Drop)]
pub struct Script {
    pub commands: Items<Command>,
    pub names: u32,
}
