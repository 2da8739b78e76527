ghost use Rattle.std.specs.Prelude.{◌≡◌, ℕ, None};

use crate::stream::{Failed, Source};
use std::io::Read;
use std::marker::Model;

/// A source over a reader of the host, as standard input. It tells no bytes.
#[derive(Drop)]
pub struct Input<R> {
    inner: R,
    faults: u64,
}

/// Contracts see how often it has failed.
impl<R> Model for Input<R> {
    ghost Value = { ℕ };

    ghost view = { λ s. s.faults };
}

impl<R: Read> Input<R> {
    /// A source that reads from `inner`.
    pub fn new(inner: R) -> Input<R>
        ensures { result ≡ 0 }
    {
        Input { inner, faults: 0 }
    }
}

impl<R: Read> Source for Input<R> {
    ghost left = { λ s. None };

    ghost faults = { λ s. s };

    ghost exact = { Unit {0} };

    fn read(&mut self, buf: &mut [u8]) -> Result<usize, Failed> {
        match self.inner.read(buf) {
            Ok(count) => Ok(count),
            Err(_) => {
                self.faults = self.faults.saturating_add(1);
                Err(Failed)
            }
        }
    }
}
