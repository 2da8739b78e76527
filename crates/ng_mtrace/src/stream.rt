ghost use Rattle.std.specs.Prelude.{◌≡◌, ◌<◌, ◌≤◌, ℕ, List, length, take, IfOk, OnOk, OnErr, Option};
ghost use Rattle.ng_mtrace.specs.Streams.{put_back, added, AtEnd};
ghost use Rattle.ng_terms.specs.Causes.{HasCause};

/// A read or a write failed.
#[derive(Clone, Copy, Debug, PartialEq, Eq)]
pub struct Failed;

/// Bytes that are read a few at a time.
pub trait Source {
    /// The bytes left, where the source tells them.
    ghost left: { Self → Option (List ℕ) };

    /// How often a read has failed.
    ghost faults: { Self → ℕ };

    /// That the count rises at no read but one that fails, where the source tells that.
    ghost exact: { Type 0 };

    /// Reads the next bytes into the front of `buf`, and answers how many. 0 comes only at the end.
    fn read(&mut self, buf: &mut [u8]) -> Result<usize, Failed>
        requires { 0 < length buf.old }
        ensures within { IfOk result (λ count. count ≤ length buf.new) }
        ensures bytes { IfOk result
            (λ count. left self.old ≡ put_back (take count buf.new) (left self.new)) }
        ensures end { IfOk result (λ count. count ≡ 0 → AtEnd (left self.new)) }

        ensures err { OnErr result (left self.new ≡ left self.old) }
        ensures cause { HasCause (faults self.old) (faults self.new) result }
        ensures faultless { exact → OnOk result (faults self.new ≡ faults self.old) };
}

/// Bytes that are written a few at a time.
pub trait Sink {
    /// The bytes written, where the sink tells them.
    ghost written: { Self → Option (List ℕ) };

    /// How often a write has failed.
    ghost faults: { Self → ℕ };

    /// Writes from the front of `bytes`, and answers how many of them.
    fn write(&mut self, bytes: &[u8]) -> Result<usize, Failed>
        requires { 0 < length bytes.now }
        ensures some { IfOk result (λ count. 1 ≤ count) }
        ensures within { IfOk result (λ count. count ≤ length bytes.now) }
        ensures bytes { IfOk result
            (λ count. written self.new ≡ added (written self.old) (take count bytes.now)) }

        ensures err { OnErr result (written self.new ≡ written self.old) }
        ensures cause { HasCause (faults self.old) (faults self.new) result };
}
