ghost use Rattle.std.specs.Prelude.{◌≡◌, ℕ, None};

use crate::stream::{Failed, Sink};
use std::io::Write;
use std::marker::Model;

/// A sink over a writer of the host, as standard output. It tells no bytes.
#[derive(Drop)]
pub struct Output<W> {
    inner: W,
    faults: u64,
}

/// Contracts see how often it has failed.
impl<W> Model for Output<W> {
    ghost Value = { ℕ };

    ghost view = { λ s. s.faults };
}

impl<W: Write> Output<W> {
    /// A sink that writes to `inner`.
    pub fn new(inner: W) -> Output<W>
        ensures { result ≡ 0 }
    {
        Output { inner, faults: 0 }
    }
}

impl<W: Write> Sink for Output<W> {
    ghost written = { λ s. None };

    ghost faults = { λ s. s };

    /// A write that takes nothing counts as a failed one.
    fn write(&mut self, bytes: &[u8]) -> Result<usize, Failed> {
        match self.inner.write(bytes) {
            Ok(count) if count > 0 => Ok(count),
            _ => {
                self.faults = self.faults.saturating_add(1);
                Err(Failed)
            }
        }
    }
}
