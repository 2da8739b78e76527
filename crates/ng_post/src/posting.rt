//! Posting.
ghost use Rattle.std.specs.Prelude.{◌≡◌, ◌∷◌, [], ◌++◌, ◌<◌, true, vec_capacity, vec_len};
ghost use Rattle.crossbeam_queue.specs.Passes.{IsPassOf, view};
ghost use Rattle.ng_post.specs.Doors.{IsDoorOf, IsNumber};
ghost use Rattle.ng_post.specs.Letters.{address_of, pair_of};

use crate::boxes::{Boxes, Door};
use crate::mail::{Letter, Mail};
use crate::rule::{Key, MailBox, Puts};
use crossbeam_utils::Backoff;
use ng_space::Name;
use std::sync::Wait;

impl<N: Name> Boxes<N> {
    /// Posts mail under a number, into the box of the log that receives the number. A full box is
    /// tried again.
    pub fn post<R: Wait>(&self, rt: &R, door: &mut Door<N>, number: u64, mail: Mail<N>)
        requires door { IsDoorOf self.now door.old }
        requires number { IsNumber self.now.receivers.items number }
        requires room { vec_len door.old.sent < vec_capacity door.old.sent }
        ensures sent { door.new.sent.items ≡ door.old.sent.items ++ (number, address_of mail) ∷ [] }

        ensures door { IsDoorOf self.now door.new }
        ensures log { door.new.log ≡ door.old.log }
        ensures got { door.new.got ≡ door.old.got }
        ensures arrived { door.new.arrived ≡ door.old.arrived }
        ensures room { vec_capacity door.new.sent ≡ vec_capacity door.old.sent }
    {
        let to = self.receivers.as_slice()[number as usize - 1] as usize;
        let from = door.log;
        door.sent.push_reserved((number, mail.address()));
        let letter = Letter { from, number, mail };
        put(rt, &self.boxes[to], &mut door.to[to], letter);
    }
}

/// Puts a letter into a box. A full box is tried again.
fn put<N: Name, R: Wait>(rt: &R, mail_box: &MailBox<N>, key: &mut Key<N>, letter: Letter<N>)
    requires pass { IsPassOf mail_box.now key.old }
    requires sends { (view key.old).sends ≡ true }
    requires from { letter.from ≡ (view key.old).from }
    ensures pass { IsPassOf mail_box.now key.new }
    ensures put { view key.new
        ≡ record (view key.old) { put = (view key.old).put ++ pair_of letter ∷ [] } }
{
    let backoff = Backoff::new();
    let mut letter = letter;
    for _ in rt.forever() {
        match mail_box.try_push_as::<Puts>(key, letter) {
            Ok(()) => return,
            Err(back) => letter = back,
        }
        backoff.snooze();
    }
    unreachable!()
}
