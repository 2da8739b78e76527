/// Turns of workers, and nothing else.
pub trait Gate {
    /// The worker of a log is about to do its op of this number. Both are from 1.
    fn enter(&self, log: u32, call: u32);

    /// The reply to that op is stored.
    fn answered(&self, log: u32, call: u32);
}

/// The gate that does nothing.
#[derive(Drop)]
pub struct Open;

impl Gate for Open {
    fn enter(&self, _log: u32, _call: u32) {}

    fn answered(&self, _log: u32, _call: u32) {}
}
