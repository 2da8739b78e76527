use ng_terms::Items;

/// A line of a log: a block is made, ended, or moved. Its pointer in the log is the block's name.
#[derive(Clone, Copy, Debug, PartialEq, Eq)]
pub enum Line {
    Make { name: u64, size: u64 },
    End { name: u64 },
    Move { old: u64, name: u64, size: u64 },
}

/// The lines of one section.
#[derive(Drop)]
pub struct Log {
    pub lines: Items<Line>,
}

/// The logs of an input, in order.
#[derive(Drop)]
pub struct Logs {
    pub logs: Items<Log>,
}
