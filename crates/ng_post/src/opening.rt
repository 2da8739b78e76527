//! Opening.
ghost use Rattle.std.specs.Prelude.{◌≡◌, ◌+◌, ◌<◌, ◌≤◌, All, IfOk, length, vec_len};
ghost use Rattle.ng_post.specs.Opened.{AreOpened, IsFresh, received_by};
ghost use Rattle.ng_post.specs.Opening.{AreLeadsAfter, AreNewBoxes, AreNewDoors, AreWays, IsNewDoor};

use crate::boxes::{Boxes, Door};
use crate::rule::{Key, MailBox, Reads, Sends};
use ng_space::Name;
use ng_terms::{Host, Plan};
use std::alloc::{AllocError, Global};

/// Makes a box and a door for each log of a plan, with room for all that is handed off.
pub fn open<N: Name>(alloc: Global, plan: &Plan) -> Result<(Boxes<N>, Vec<Door<N>>), Host>
    requires few { length plan.now.logs ≤ 16 }
    requires receivers { All (λ log. log < length plan.now.logs) plan.now.receivers }
    ensures { IfOk result (λ (boxes, doors). AreOpened plan.now boxes doors.items) }
{
    match open_all(alloc, plan) {
        Ok(opened) => Ok(opened),
        Err(_) => Err(Host),
    }
}

fn open_all<N: Name>(alloc: Global, plan: &Plan) -> Result<(Boxes<N>, Vec<Door<N>>), AllocError>
    requires few { length plan.now.logs ≤ 16 }
    requires receivers { All (λ log. log < length plan.now.logs) plan.now.receivers }
    ensures { IfOk result (λ (boxes, doors). AreOpened plan.now boxes doors.items) }
{
    let (boxes, mut leads) = open_boxes(alloc, plan)?;
    let mut doors = open_doors(alloc, plan, &boxes, &mut leads)?;
    if doors.len() > 0 {
        doors[0].leads = leads;
    }
    Ok((boxes, doors))
}

/// Makes a box for each log, with the pass that leads.
fn open_boxes<N: Name>(alloc: Global, plan: &Plan) -> Result<(Boxes<N>, Vec<Key<N>>), AllocError>
    requires few { length plan.now.logs ≤ 16 }
    requires receivers { All (λ log. log < length plan.now.logs) plan.now.receivers }
    ensures { IfOk result (λ (boxes, leads). AreNewBoxes plan.now boxes leads.items) }
{
    let count = plan.logs.len();
    let receivers = plan.receivers.as_slice().to_vec(alloc)?;
    let ranks = ranks_of(alloc, receivers.as_slice(), count)?;
    let mut boxes = Vec::with_capacity(alloc, count)?;
    let mut leads = Vec::with_capacity(alloc, count)?;
    for log in 0..count {
        let letters = received(receivers.as_slice(), log as u32);
        let (mail_box, lead) = MailBox::ruled(alloc, letters.max(1))?;
        boxes.push_reserved(mail_box);
        leads.push_reserved(lead);
    }
    let boxes = Boxes {
        boxes,
        receivers,
        ranks,
    };
    Ok((boxes, leads))
}

/// For each number its rank among those that its receiver receives, from 0.
fn ranks_of(alloc: Global, receivers: &[u32], logs: usize) -> Result<Vec<u32>, AllocError>
    requires receivers { All (λ log. log < logs) receivers.now }
{
    let mut received = vec![in alloc; 0u32; logs]?;
    let mut ranks = Vec::with_capacity(alloc, receivers.len())?;
    for receiver in receivers {
        let count = &mut received[*receiver as usize];
        ranks.push(*count)?;
        *count = count.saturating_add(1);
    }
    Ok(ranks)
}

/// Makes a door for each log.
fn open_doors<N: Name>(
    alloc: Global,
    plan: &Plan,
    boxes: &Boxes<N>,
    leads: &mut Vec<Key<N>>,
) -> Result<Vec<Door<N>>, AllocError>
    requires few { length plan.now.logs ≤ 16 }
    requires count { vec_len boxes.now.boxes ≡ length plan.now.logs }
    requires leads { AreLeadsAfter boxes.now 0 0 leads.old.items }
    ensures doors { IfOk result (λ doors. AreNewDoors plan.now boxes.now doors.items) }
    ensures leads { IfOk result (λ doors. AreLeadsAfter boxes.now
        (vec_len boxes.now.boxes) (vec_len boxes.now.boxes) leads.new.items) }
{
    let mut doors = Vec::with_capacity(alloc, plan.logs.len())?;
    for (log, ops) in plan.logs.as_slice().iter().enumerate() {
        let door = open_door(alloc, boxes, leads, log, ops.len())?;
        doors.push_reserved(door);
    }
    Ok(doors)
}

/// Makes a log's door.
fn open_door<N: Name>(
    alloc: Global,
    boxes: &Boxes<N>,
    leads: &mut Vec<Key<N>>,
    log: usize,
    ops: usize,
) -> Result<Door<N>, AllocError>
    requires log { log < vec_len boxes.now.boxes }
    requires few { vec_len boxes.now.boxes ≤ 16 }
    requires leads { AreLeadsAfter boxes.now log log leads.old.items }
    ensures door { IfOk result (λ door. IsNewDoor boxes.now log door) }
    ensures fresh { IfOk result (λ door.
        IsFresh door ops (received_by boxes.now.receivers.items log)) }
    ensures leads { IfOk result (λ door.
        AreLeadsAfter boxes.now (log + 1) (log + 1) leads.new.items) }
{
    let letters = received(boxes.receivers.as_slice(), log as u32);
    let own = boxes.boxes[log].another::<Reads>(&mut leads[log]);
    let to = open_ways(alloc, boxes, leads, log)?;
    Ok(Door {
        log: log as u32,
        own,
        to,
        kept: Vec::with_capacity(alloc, letters)?,
        places: vec![in alloc; 0u32; letters]?,
        sent: Vec::with_capacity(alloc, ops)?,
        got: Vec::with_capacity(alloc, ops)?,
        arrived: Vec::with_capacity(alloc, letters)?,
        leads: Vec::new(alloc),
    })
}

/// Makes a sender's pass to each box.
fn open_ways<N: Name>(
    alloc: Global,
    boxes: &Boxes<N>,
    leads: &mut Vec<Key<N>>,
    log: usize,
) -> Result<Vec<Key<N>>, AllocError>
    requires leads { AreLeadsAfter boxes.now log (log + 1) leads.old.items }
    ensures ways { IfOk result (λ ways. AreWays boxes.now log ways.items) }
    ensures leads { IfOk result (λ ways.
        AreLeadsAfter boxes.now (log + 1) (log + 1) leads.new.items) }
{
    let mut ways = Vec::with_capacity(alloc, boxes.boxes.len())?;
    for b in 0..boxes.boxes.len() {
        let way = boxes.boxes[b].another::<Sends>(&mut leads[b]);
        ways.push_reserved(way);
    }
    Ok(ways)
}

/// How many hand-offs a log receives.
fn received(receivers: &[u32], log: u32) -> usize
    ensures { result ≡ received_by receivers.now log }
{
    let mut count = 0;
    for receiver in receivers {
        if *receiver == log {
            count += 1;
        }
    }
    count
}
