ghost use Rattle.std.specs.Prelude.{◌≡◌, if◌then◌else◌};
ghost use Rattle.ng_terms.specs.Calls.{is_skip};

use ng_terms::{Op, Origin};

/// How many ops were seen, and how many of them were of each kind.
#[derive(Clone, Copy, Debug, PartialEq, Eq)]
pub struct Counts {
    pub ops: u64,
    pub makes: u64,
    pub ends: u64,
    pub moves: u64,
    /// Ends and moves of a block that comes from nowhere.
    pub skips: u64,
}

impl Counts {
    ghost use Rattle.std.specs.Prelude.{◌≡◌, ◌+◌, ◌^◌, ◌<◌, if◌then◌else◌};
    ghost use Rattle.ng_census.specs.Counts.{IsWithin, Raises};

    /// No op was seen.
    pub const NONE: Counts = Counts {
        ops: 0,
        makes: 0,
        ends: 0,
        moves: 0,
        skips: 0,
    };

    /// Counts an op.
    pub fn add(&mut self, op: &Op)
        requires within { IsWithin self.old }
        requires room { self.old.ops + 1 < 2 ^ 64 }
        ensures raised { Raises self.old self.new (λ test. if test op.now then 1 else 0) }
        ensures ops { self.new.ops ≡ self.old.ops + 1 }
        ensures within { IsWithin self.new }
    {
        self.ops += 1;
        match *op {
            Op::Make { .. } => self.makes += 1,
            Op::Free { from, .. } => {
                self.ends += 1;
                self.skips += skip(from);
            }
            Op::Move { from, .. } => {
                self.moves += 1;
                self.skips += skip(from);
            }
        }
    }
}

/// 1 where a block comes from nowhere, else 0.
fn skip(from: Origin) -> u64
    ensures { result ≡ (if is_skip from then 1 else 0) }
{
    match from {
        Origin::Skip => 1,
        Origin::Own(_) | Origin::Claim(_) => 0,
    }
}
