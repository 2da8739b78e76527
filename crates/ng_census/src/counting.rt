//! The counts of all ops, in one pass.
ghost use Rattle.std.specs.Prelude.{◌≡◌, ◌+◌, ◌^◌, ◌<◌, length, count_by};
ghost use Rattle.ng_census.specs.Counts.{IsCount, IsWithin, Raises};
ghost use Rattle.ng_terms.specs.Calls.{op_count};

use crate::counts::Counts;
use ng_terms::{Items, Op};

fn count_log(counts: &mut Counts, ops: &[Op])
    requires within { IsWithin counts.old }
    requires room { counts.old.ops + length ops.now < 2 ^ 64 }
    ensures raised { Raises counts.old counts.new (λ test. count_by test ops.now) }
    ensures ops { counts.new.ops ≡ counts.old.ops + length ops.now }
    ensures within { IsWithin counts.new }
{
    for op in ops {
        counts.add(op);
    }
}

/// Counts the ops of all logs.
pub fn count_ops(logs: &[Items<Op>]) -> Counts
    requires { op_count logs.now < 2 ^ 64 }
    ensures { IsCount result logs.now }
{
    let mut counts = Counts::NONE;
    for ops in logs {
        count_log(&mut counts, ops.as_slice());
    }
    counts
}
