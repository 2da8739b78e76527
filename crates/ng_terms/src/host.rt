/// The host has no memory left. It is the one answer that no clause gives a cause for.
#[derive(Clone, Copy, Debug, PartialEq, Eq)]
pub struct Host;
