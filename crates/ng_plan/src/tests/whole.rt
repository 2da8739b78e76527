ghost use Rattle.std.specs.Prelude.{◌+◌, ◌≤◌, length};

use crate::plan;
use ng_mtrace::{Items, Line, Log, Logs};
use ng_terms::{Op, Origin, Plan};
use std::alloc::Global;
use std::test::Fail;

/// The plan of two logs.
fn plan_of_two(alloc: Global, first: &[Line], second: &[Line]) -> Result<Plan, Fail>
    requires { length first.now + length second.now ≤ 100 }
{
    let first = Log {
        lines: Items::from_vec(first.to_vec(alloc)?),
    };
    let second = Log {
        lines: Items::from_vec(second.to_vec(alloc)?),
    };
    let logs = Logs {
        logs: Items::from_vec(vec![in alloc; first, second]?),
    };
    Ok(plan(alloc, &logs).or(Err("no memory"))?)
}

fn made(name: u64, size: u64) -> Line {
    Line::Make { name, size }
}

fn ended(name: u64) -> Line {
    Line::End { name }
}

fn moved(old: u64, name: u64, size: u64) -> Line {
    Line::Move { old, name, size }
}

fn make(name: u64, size: u64, to: Option<u64>) -> Op {
    Op::Make { name, size, to }
}

fn free(name: u64, from: Origin) -> Op {
    Op::Free { name, from }
}

#[test]
fn a_block_is_handed_to_its_own_log(rt: HostRuntime) -> Result<(), Fail> {
    let lines = [made(16, 20), made(16, 20), ended(16), ended(16)];
    let plan = plan_of_two(rt.alloc(), &lines, &[])?;
    let ops = [
        make(16, 20, Some(1)),
        make(16, 20, None),
        free(16, Origin::Own(1)),
        free(16, Origin::Claim(1)),
    ];
    assert_eq!(rt; plan.logs.len(), 2);
    assert_eq!(rt; plan.logs.as_slice()[0].as_slice(), ops.as_slice());
    assert_eq!(rt; plan.logs.as_slice()[1].len(), 0);
    assert_eq!(rt; plan.order.as_slice(), [0, 0, 0, 0].as_slice());
    assert_eq!(rt; plan.receivers.as_slice(), [0].as_slice());
    Ok(())
}

#[test]
fn a_claim_that_waits_in_vain_is_skipped(rt: HostRuntime) -> Result<(), Fail> {
    let plan = plan_of_two(
        rt.alloc(),
        &[ended(32), made(16, 20)],
        &[ended(16), made(16, 20)],
    )?;
    let first = [free(32, Origin::Skip), make(16, 20, Some(1))];
    let second = [free(16, Origin::Claim(1)), make(16, 20, None)];
    assert_eq!(rt; plan.logs.len(), 2);
    assert_eq!(rt; plan.logs.as_slice()[0].as_slice(), first.as_slice());
    assert_eq!(rt; plan.logs.as_slice()[1].as_slice(), second.as_slice());
    assert_eq!(rt; plan.order.as_slice(), [0, 0, 1, 1].as_slice());
    assert_eq!(rt; plan.receivers.as_slice(), [1].as_slice());
    Ok(())
}

#[test]
fn the_earliest_block_is_taken_first(rt: HostRuntime) -> Result<(), Fail> {
    let makes = [made(16, 1), made(16, 2), made(16, 3)];
    let takes = [ended(16), moved(16, 16, 4), ended(16)];
    let plan = plan_of_two(rt.alloc(), &makes, &takes)?;
    let first = [
        make(16, 1, Some(1)),
        make(16, 2, Some(2)),
        make(16, 3, None),
    ];
    let to_itself = Op::Move {
        old: 16,
        name: 16,
        from: Origin::Claim(2),
        size: 4,
        to: None,
    };
    let second = [
        free(16, Origin::Claim(1)),
        to_itself,
        free(16, Origin::Own(1)),
    ];
    assert_eq!(rt; plan.logs.len(), 2);
    assert_eq!(rt; plan.logs.as_slice()[0].as_slice(), first.as_slice());
    assert_eq!(rt; plan.logs.as_slice()[1].as_slice(), second.as_slice());
    assert_eq!(rt; plan.order.as_slice(), [0, 1, 0, 1, 0, 1].as_slice());
    assert_eq!(rt; plan.receivers.as_slice(), [1, 1].as_slice());
    Ok(())
}
