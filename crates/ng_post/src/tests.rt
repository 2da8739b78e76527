ghost use Rattle.std.specs.Prelude.{◌≡◌, ◌∷◌, [], IfOk, None, length, map};
ghost use Rattle.ng_post.specs.Doors.{IsDoorOf};
ghost use Rattle.ng_post.specs.Opened.{IsFresh};

use crate::{Boxes, Door, Mail, finish, open};
use ng_space::Name;
use ng_terms::{Items, Op, Origin, Plan};
use std::alloc::{AllocError, Global};
use std::marker::Brand;
use std::sync::Wait;
use std::test::Fail;
use std::thread;
use std::thread::Threads;

fn made(name: u64, number: u64) -> Op {
    Op::Make {
        name,
        size: 1,
        to: Some(number),
    }
}

fn ended(name: u64, number: u64) -> Op {
    Op::Free {
        name,
        from: Origin::Claim(number),
    }
}

/// A log makes three blocks for another, which ends the last one first.
fn three_hand_offs(alloc: Global) -> Result<Plan, AllocError>
    ensures ops { IfOk result (λ plan. map length plan.logs ≡ 3 ∷ 3 ∷ []) }
    ensures receivers { IfOk result (λ plan. plan.receivers ≡ 1 ∷ 1 ∷ 1 ∷ []) }
{
    let first = vec![in alloc; made(7, 1), made(8, 2), made(9, 3)]?;
    let second = vec![in alloc; ended(9, 3), ended(7, 1), ended(8, 2)]?;
    let logs = vec![in alloc; Items::from_vec(first), Items::from_vec(second)]?;
    Ok(Plan {
        logs: Items::from_vec(logs),
        order: Items::from_vec(vec![in alloc; 0, 0, 0, 1, 1, 1]?),
        receivers: Items::from_vec(vec![in alloc; 1, 1, 1]?),
    })
}

fn post_three<N: Name, R: Wait>(rt: &R, boxes: &Boxes<N>, mut door: Door<N>) -> Door<N>
    requires door { IsDoorOf boxes.now door }
    requires fresh { IsFresh door 3 0 }
    requires receivers { boxes.now.receivers.items ≡ 1 ∷ 1 ∷ 1 ∷ [] }
    ensures door { IsDoorOf boxes.now result }
    ensures log { result.log ≡ door.log }
    ensures sent { result.sent.items ≡ (1, None) ∷ (2, None) ∷ (3, None) ∷ [] }
{
    boxes.post(rt, &mut door, 1, Mail::Nothing);
    boxes.post(rt, &mut door, 2, Mail::Nothing);
    boxes.post(rt, &mut door, 3, Mail::Nothing);
    door
}

fn collect_three<N: Name, R: Wait>(rt: &R, boxes: &Boxes<N>, mut door: Door<N>) -> Door<N>
    requires door { IsDoorOf boxes.now door }
    requires fresh { IsFresh door 3 3 }
    ensures door { IsDoorOf boxes.now result }
    ensures log { result.log ≡ door.log }
    ensures sent { result.sent.items ≡ [] }
    ensures got { map (λ pair. pair.0) result.got.items ≡ 3 ∷ 1 ∷ 2 ∷ [] }
{
    drop(boxes.collect(rt, &mut door, 3));
    drop(boxes.collect(rt, &mut door, 1));
    drop(boxes.collect(rt, &mut door, 2));
    door
}

/// Posts and collects in two threads.
fn hand_over<R: Threads + Wait + Sync>(
    rt: &R,
    boxes: &Boxes<Brand>,
    first: Door<Brand>,
    second: Door<Brand>,
) -> (Door<Brand>, Door<Brand>)
    requires first { IsDoorOf boxes.now first }
    requires second { IsDoorOf boxes.now second }
    requires first_fresh { IsFresh first 3 0 }
    requires second_fresh { IsFresh second 3 3 }
    requires receivers { boxes.now.receivers.items ≡ 1 ∷ 1 ∷ 1 ∷ [] }
    ensures first { IsDoorOf boxes.now result.0 }
    ensures first_log { result.0.log ≡ first.log }
    ensures sent { result.0.sent.items ≡ (1, None) ∷ (2, None) ∷ (3, None) ∷ [] }
    ensures second { IsDoorOf boxes.now result.1 }
    ensures second_log { result.1.log ≡ second.log }
    ensures none_sent { result.1.sent.items ≡ [] }
    ensures got { map (λ pair. pair.0) result.1.got.items ≡ 3 ∷ 1 ∷ 2 ∷ [] }
{
    thread::join(
        rt,
        || post_three(rt, boxes, first),
        || collect_three(rt, boxes, second),
    )
}

fn numbers(pairs: &[(u64, Option<u64>)], alloc: Global) -> Result<Vec<u64>, AllocError> {
    let mut numbers = Vec::new(alloc);
    for pair in pairs {
        numbers.push(pair.0)?;
    }
    Ok(numbers)
}

/// Three hand-offs are posted in order and collected out of order, in two threads, and all is ended.
#[test]
fn three_letters(rt: HostRuntime) -> Result<(), Fail> {
    let plan = three_hand_offs(rt.alloc())?;
    let Ok((boxes, mut doors)) = open::<Brand>(rt.alloc(), &plan) else {
        return Err(Fail::from("no memory"));
    };
    let second = doors.remove(1);
    let first = doors.remove(0);
    let (first, second) = hand_over(&rt, &boxes, first, second);
    let sent = numbers(first.sent.as_slice(), rt.alloc())?;
    let arrived = numbers(second.arrived.as_slice(), rt.alloc())?;
    let got = numbers(second.got.as_slice(), rt.alloc())?;
    assert_eq!(rt; sent.as_slice(), [1, 2, 3].as_slice());
    assert_eq!(rt; arrived.as_slice(), [1, 2, 3].as_slice());
    assert_eq!(rt; got.as_slice(), [3, 1, 2].as_slice());
    finish(boxes, vec![in rt.alloc(); first, second]?);
    Ok(())
}
