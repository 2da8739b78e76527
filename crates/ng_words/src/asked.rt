use crate::numbers::Numbers;
use crate::verb::Verb;
use ng_terms::{Items, Mode};

/// What the words of a command ask.
#[derive(Drop)]
pub struct Command {
    pub verb: Verb,
    /// The size of the space.
    pub pages: u32,
    /// The most pages that may be live at once.
    pub quota: u64,
    /// The numbers of the map calls to refuse.
    pub refuse: Numbers,
    /// Whether the report has a line for each call.
    pub calls_shown: bool,
    /// How the run makes blocks.
    pub mode: Mode,
    /// What logs are made of.
    pub seed: u64,
}

/// What the words ask of the space: its size in pages, the numbers of the map calls to refuse, and the most pages that may be
/// live at once.
#[derive(Drop)]
pub struct Setup {
    pub pages: u32,
    pub refuse: Items<u64>,
    pub quota: u64,
}
