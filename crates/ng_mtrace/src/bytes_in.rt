ghost use Rattle.std.specs.Prelude.{◌≡◌, ◌<◌, ◌≤◌, ◌↔◌, [], ◌++◌, drop, length, take, Some, vec_len, Contains, IfOk, IsErr, OnOk, OnErr};
ghost use Rattle.ng_mtrace.specs.InMemory.{Feed, next_call};
ghost use Rattle.ng_terms.specs.Causes.{HasCause};

use crate::stream::{Failed, Source};
use std::marker::Model;

/// A source in memory, which fails at chosen calls.
#[derive(Drop)]
pub struct BytesIn {
    bytes: Vec<u8>,
    at: usize,
    step: usize,
    failing: Vec<u64>,
    calls: u64,
    faults: u64,
}

impl Model for BytesIn {
    ghost Value = { Feed };

    ghost view = { λ s. record {
      left = drop s.at s.bytes.items;
      step = s.step;
      failing = s.failing.items;
      calls = s.calls;
      faults = s.faults;
    } };

    ghost invariant = { λ s. (s.at ≤ vec_len s.bytes) × (1 ≤ s.step) };
}

impl BytesIn {
    /// A source of these bytes. A read gives at most `step` of them, and fails where its number,
    /// from 1, is in `failing`.
    pub fn new(bytes: Vec<u8>, step: usize, failing: Vec<u64>) -> BytesIn
        requires { 1 ≤ step }
        ensures { result ≡ record {
          left = bytes.items;
          step = step;
          failing = failing.items;
          calls = 0;
          faults = 0;
        } }
    {
        BytesIn {
            bytes,
            at: 0,
            step,
            failing,
            calls: 0,
            faults: 0,
        }
    }
}

impl Source for BytesIn {
    ghost left = { λ s. Some s.left };

    ghost faults = { λ s. s.faults };

    ghost exact = { Unit {0} };

    fn read(&mut self, buf: &mut [u8]) -> Result<usize, Failed>
        requires { 0 < length buf.old }
        ensures within { IfOk result (λ count. count ≤ length buf.new) }
        ensures bytes { IfOk result (λ count. self.old.left ≡ take count buf.new ++ self.new.left) }
        ensures end { IfOk result (λ count. count ≡ 0 → self.new.left ≡ []) }
        ensures step { IfOk result (λ count. count ≤ self.old.step) }

        ensures failed { IsErr result ↔ Contains self.old.failing (next_call self.old.calls) }
        ensures err { OnErr result (self.new.left ≡ self.old.left) }
        ensures cause { HasCause self.old.faults self.new.faults result }

        ensures faultless { OnOk result (self.new.faults ≡ self.old.faults) }
        ensures kept { self.new ≡ record self.old {
          left = self.new.left;
          calls = next_call self.old.calls;
          faults = self.new.faults;
        } }
    {
        self.calls = self.calls.saturating_add(1);
        if self.failing.contains(&self.calls) {
            self.faults = self.faults.saturating_add(1);
            return Err(Failed);
        }
        let count = (self.bytes.len() - self.at).min(self.step).min(buf.len());
        let end = self.at + count;
        buf[..count].copy_from_slice(&self.bytes[self.at..end]);
        self.at = end;
        Ok(count)
    }
}
