// The largest request of a plan.
ghost use Rattle.std.specs.Prelude.{◌≡◌, ◌⊎◌, ◌+◌, ◌-◌, ◌<◌, ◌≤◌, ℕ, max};
ghost use Rattle.ng_replay.specs.Caps.{IsCapIn, IsCapped};
ghost use Rattle.ng_replay.specs.Serving.{IsCapOf};
ghost use Rattle.ng_terms.specs.Accounts.{Asks};
ghost use Rattle.ng_terms.specs.Heap.{large};

use crate::make::alignment;
use ng_terms::{LARGE, Mode, Op, Plan};

/// The most bytes that an op of the plan asks for under the mode, but for those that are too many; or 0.
pub fn cap_of(plan: &Plan, mode: Mode) -> u64
    ensures cap { IsCapOf result plan.now mode }
    ensures small { result < large }
{
    let mut cap = 0;
    for ops in plan.logs.as_slice() {
        cap = larger(cap, cap_of_log(ops.as_slice(), mode));
    }
    cap
}

/// The most bytes that an op of a log asks for, but for those that are too many; or 0.
fn cap_of_log(ops: &[Op], mode: Mode) -> u64
    ensures cap { IsCapIn mode ops.now result }
    ensures small { result < large }
{
    let mut cap = 0;
    for op in ops {
        cap = larger(cap, asked_by(op, mode));
    }
    cap
}

/// The larger of two numbers.
fn larger(cap: u64, size: u64) -> u64
    ensures { result ≡ max cap size }
{
    cap.max(size)
}

/// The most bytes that an op asks for, but for those that are too many; or 0.
fn asked_by(op: &Op, mode: Mode) -> u64
    ensures asked { (result ≡ 0) ⊎ Asks mode op.now result }
    ensures capped { IsCapped mode result op.now }
    ensures small { result < large }
{
    match *op {
        Op::Make {
            name: _,
            size,
            to: _,
        } => most_asked(size, alignment(mode)),
        Op::Free { name: _, from: _ } => 0,
        Op::Move {
            old: _,
            name: _,
            from: _,
            size,
            to: _,
        } => most_asked(size, alignment(mode)),
    }
}

/// The greater of a size, and of the size with the room to align in, that isn't too many; or 0.
fn most_asked(size: u64, align: u64) -> u64
    ensures asked { (result ≡ 0) ⊎ ((result ≡ size) ⊎ (result ≡ size + max align 16 - 16)) }
    ensures greatest { (bytes : ℕ) → (bytes ≡ size) ⊎ (bytes ≡ size + max align 16 - 16) → bytes < large → bytes ≤ result }
    ensures small { result < large }
{
    let aligned = size.saturating_add(align.max(16) - 16);
    if aligned < LARGE {
        aligned
    } else if size < LARGE {
        size
    } else {
        0
    }
}
