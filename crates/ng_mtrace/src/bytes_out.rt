ghost use Rattle.std.specs.Prelude.{◌≡◌, ◌-◌, ◌<◌, ◌≤◌, ◌↔◌, ◌⊎◌, [], ◌++◌, length, take, Some, vec_len, vec_capacity, Contains, min, IfOk, IsErr, OnOk, OnErr};
ghost use Rattle.ng_mtrace.specs.InMemory.{Store, next_call};
ghost use Rattle.ng_terms.specs.Causes.{HasCause};

use crate::stream::{Failed, Sink};
use ng_terms::Host;
use std::alloc::Global;
use std::marker::Model;

/// A sink in memory reserved before, which fails at chosen calls.
#[derive(Drop)]
pub struct BytesOut {
    bytes: Vec<u8>,
    room: usize,
    failing: Vec<u64>,
    calls: u64,
    faults: u64,
}

impl Model for BytesOut {
    ghost Value = { Store };

    ghost view = { λ s. record {
      written = s.bytes.items;
      room = s.room;
      failing = s.failing.items;
      calls = s.calls;
      faults = s.faults;
    } };

    ghost invariant = { λ s. (s.room ≤ vec_capacity s.bytes) × (vec_len s.bytes ≤ s.room) };
}

impl BytesOut {
    /// A sink with room for so many bytes. A write takes what fits, and fails where its number,
    /// from 1, is in `failing` or no room is left.
    pub fn new(alloc: Global, room: usize, failing: Vec<u64>) -> Result<BytesOut, Host>
        ensures { IfOk result (λ out. out ≡ record {
          written = [];
          room = room;
          failing = failing.items;
          calls = 0;
          faults = 0;
        }) }
    {
        let Ok(bytes) = Vec::with_capacity(alloc, room) else {
            return Err(Host);
        };
        Ok(BytesOut {
            bytes,
            room,
            failing,
            calls: 0,
            faults: 0,
        })
    }

    /// The bytes written.
    pub fn bytes(&self) -> &[u8]
        ensures { result.now ≡ self.now.written }
    {
        self.bytes.as_slice()
    }
}

impl Sink for BytesOut {
    ghost written = { λ s. Some s.written };

    ghost faults = { λ s. s.faults };

    fn write(&mut self, bytes: &[u8]) -> Result<usize, Failed>
        requires { 0 < length bytes.now }
        ensures some { IfOk result (λ count. 1 ≤ count) }
        ensures within { IfOk result (λ count. count ≤ length bytes.now) }
        ensures count { IfOk result
            (λ count. count ≡ min (self.old.room - length self.old.written) (length bytes.now)) }
        ensures bytes { IfOk result
            (λ count. self.new.written ≡ self.old.written ++ take count bytes.now) }

        ensures failed { IsErr result ↔ (Contains self.old.failing (next_call self.old.calls)
            ⊎ (length self.old.written ≡ self.old.room)) }
        ensures err { OnErr result (self.new.written ≡ self.old.written) }
        ensures cause { HasCause self.old.faults self.new.faults result }

        ensures faultless { OnOk result (self.new.faults ≡ self.old.faults) }
        ensures kept { self.new ≡ record self.old {
          written = self.new.written;
          calls = next_call self.old.calls;
          faults = self.new.faults;
        } }
    {
        self.calls = self.calls.saturating_add(1);
        let left = self.room - self.bytes.len();
        if left == 0 || self.failing.contains(&self.calls) {
            self.faults = self.faults.saturating_add(1);
            return Err(Failed);
        }
        let count = left.min(bytes.len());
        self.bytes.extend_from_slice(&bytes[..count]).unwrap();
        Ok(count)
    }
}
