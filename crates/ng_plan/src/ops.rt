ghost use Rattle.std.specs.Prelude.{◌≡◌, List, [], ℕ, length, IfOk};
ghost use Rattle.ng_plan.specs.Numbers.{AreNumbers};
ghost use Rattle.ng_plan.specs.Plans.{op_of, ops_of, origin as origin_of};
ghost use Rattle.ng_plan.specs.Schedules.{AreTurns};
ghost use Rattle.ng_plan.specs.Steps.{owns_of};
ghost use Rattle.ng_plan.specs.Turns.{Turns, makers_of, takers_of};

use crate::numbers::numbers;
use crate::schedule::Schedule;
use ng_mtrace::Line;
use ng_terms::{Items, Op, Origin};
use std::alloc::{AllocError, Global};

/// The ops of a log, from its own ops and all turns.
pub fn log_ops(
    alloc: Global,
    schedule: &Schedule,
    log: u32,
    lines: &[Line],
    owns: &[Option<u32>],
) -> Result<Items<Op>, AllocError>
    requires { owns.now ≡ owns_of lines.now }
    ensures { IfOk result (λ ops. (names : List ℕ) (turns : Turns)
        → AreTurns names schedule.now turns
        → ops ≡ ops_of turns log lines.now) }
{
    if schedule.takers.is_empty() && schedule.makers.is_empty() {
        return Ok(Items::from_vec(own_ops(alloc, lines, owns)?));
    }
    let taken = numbers(alloc, schedule.takers.as_slice(), log, lines.len())?;
    let given = numbers(alloc, schedule.makers.as_slice(), log, lines.len())?;
    let ops = numbered_ops(alloc, lines, owns, taken.as_slice(), given.as_slice())?;
    Ok(Items::from_vec(ops))
}

/// The ops of a log, from its own ops, where no block is handed off.
fn own_ops(alloc: Global, lines: &[Line], owns: &[Option<u32>]) -> Result<Vec<Op>, AllocError>
    requires { owns.now ≡ owns_of lines.now }
    ensures { IfOk result (λ ops. (turns : Turns) (log : ℕ) → takers_of turns ≡ []
        → makers_of turns ≡ [] → ops.items ≡ ops_of turns log lines.now) }
{
    let mut ops = Vec::with_capacity(alloc, lines.len())?;
    for (at, line) in lines.iter().enumerate() {
        ops.push(op(line, owns[at], None, None))?;
    }
    Ok(ops)
}

/// The ops of a log, from its own ops and the numbers of its hand-offs.
fn numbered_ops(
    alloc: Global,
    lines: &[Line],
    owns: &[Option<u32>],
    taken: &[Option<u64>],
    given: &[Option<u64>],
) -> Result<Vec<Op>, AllocError>
    requires owns { owns.now ≡ owns_of lines.now }
    requires taken { length taken.now ≡ length lines.now }
    requires given { length given.now ≡ length lines.now }
    ensures { IfOk result (λ ops. (turns : Turns) (log : ℕ)
        → AreNumbers (takers_of turns) 1 log taken.now
        → AreNumbers (makers_of turns) 1 log given.now → ops.items ≡ ops_of turns log lines.now) }
{
    let mut ops = Vec::with_capacity(alloc, lines.len())?;
    for (at, line) in lines.iter().enumerate() {
        ops.push(op(line, owns[at], taken[at], given[at]))?;
    }
    Ok(ops)
}

/// The op of a line, from its own op and the numbers of its hand-offs.
fn op(line: &Line, own: Option<u32>, taken: Option<u64>, given: Option<u64>) -> Op
    ensures { result ≡ op_of line.now own taken given }
{
    let from = origin(own, taken);
    match *line {
        Line::Make { name, size } => Op::Make {
            name,
            size,
            to: given,
        },
        Line::End { name } => Op::Free { name, from },
        Line::Move { old, name, size } => Op::Move {
            old,
            name,
            from,
            size,
            to: given,
        },
    }
}

/// Where a block comes from.
fn origin(own: Option<u32>, taken: Option<u64>) -> Origin
    ensures { result ≡ origin_of own taken }
{
    match (own, taken) {
        (Some(op), _) => Origin::Own(op),
        (None, Some(number)) => Origin::Claim(number),
        (None, None) => Origin::Skip,
    }
}
