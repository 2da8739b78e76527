//! Ending.
ghost use Rattle.std.specs.Prelude.{◌<◌, ◌≡◌, length, vec_len};
ghost use Rattle.ng_post.specs.Doors.{AreDoorsOf};
ghost use Rattle.ng_post.specs.Ending.{AreLearned, HaveEnded, MayEnd, MayLearn, TakesIn};
ghost use Rattle.ng_post.specs.Ends.{AreCollected, AreHandedOver, ArePostedOnce};

use crate::boxes::{Boxes, Door};
use crate::rule::{Ends, Key, Reads, Totals};
use ng_space::Name;

/// Ends all doors and boxes, once each number was posted and collected.
pub fn finish<N: Name>(boxes: Boxes<N>, doors: Vec<Door<N>>)
    requires doors { AreDoorsOf boxes doors.items }
    requires once { ArePostedOnce doors.items }
    requires collected { AreCollected boxes.receivers.items doors.items }
    ensures { AreHandedOver boxes.receivers.items doors.items }
{
    if doors.len() > 0 {
        let mut leads = end_doors(&boxes, doors);
        learn(&boxes, &mut leads);
    }
}

/// Takes the passes of all doors in.
fn end_doors<N: Name>(boxes: &Boxes<N>, doors: Vec<Door<N>>) -> Vec<Key<N>>
    requires doors { AreDoorsOf boxes.now doors.items }
    requires some { 0 < length doors.items }
    ensures { HaveEnded boxes.now doors.items (length doors.items) result.items }
{
    let mut doors = doors;
    let Door {
        log,
        own,
        to,
        kept: _,
        places: _,
        sent: _,
        got: _,
        arrived: _,
        mut leads,
    } = doors.remove(0);
    end_passes(boxes, &mut leads, log, own, to);
    for door in doors {
        let Door {
            log,
            own,
            to,
            kept: _,
            places: _,
            sent: _,
            got: _,
            arrived: _,
            leads: _,
        } = door;
        end_passes(boxes, &mut leads, log, own, to);
    }
    leads
}

/// Takes the passes of a door in.
fn end_passes<N: Name>(
    boxes: &Boxes<N>,
    leads: &mut Vec<Key<N>>,
    log: u32,
    own: Key<N>,
    to: Vec<Key<N>>,
)
    requires { MayEnd boxes.now leads.old.items log own to.items }
    ensures { TakesIn boxes.now log own to.items leads.old.items leads.new.items }
{
    boxes.boxes[log as usize].absorb::<Reads>(&mut leads[log as usize], own);
    let mut to = to;
    while let Some(key) = to.pop() {
        let b = to.len();
        boxes.boxes[b].absorb::<Ends>(&mut leads[b], key);
    }
}

/// Learns of each box that what was taken out of it is what was put in, but for what it holds.
fn learn<N: Name>(boxes: &Boxes<N>, leads: &mut Vec<Key<N>>)
    requires { MayLearn boxes.now leads.old.items }
    ensures { AreLearned boxes.now leads.old.items }
{
    for b in 0..leads.len() {
        boxes.boxes[b].learn_as::<Totals>(&mut leads[b]);
    }
}
