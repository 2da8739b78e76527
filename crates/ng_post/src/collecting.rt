//! Collecting.
ghost use Rattle.std.specs.Prelude.{◌≡◌, ◌∷◌, [], ◌++◌, ◌<◌, IfSome, None, map};
ghost use Rattle.std.specs.Prelude.{vec_capacity, vec_len};
ghost use Rattle.std.specs.List.Sorted.{IsPermutation};
ghost use Rattle.ng_post.specs.Doors.{IsDoorOf};
ghost use Rattle.ng_post.specs.Letters.{address_of, pair_of};

use crate::boxes::{Boxes, Door};
use crate::mail::{Letter, Mail};
use crate::rule::Gets;
use crossbeam_utils::Backoff;
use ng_space::Name;
use std::sync::Wait;

impl<N: Name> Boxes<N> {
    /// Waits for the mail of a number that the door's log receives. Other mail is kept in the door.
    pub fn collect<R: Wait>(&self, rt: &R, door: &mut Door<N>, number: u64) -> Mail<N>
        requires door { IsDoorOf self.now door.old }
        requires room { vec_len door.old.got < vec_capacity door.old.got }
        ensures got { door.new.got.items ≡ door.old.got.items ++ (number, address_of result) ∷ [] }

        ensures door { IsDoorOf self.now door.new }
        ensures log { door.new.log ≡ door.old.log }
        ensures sent { door.new.sent ≡ door.old.sent }
        ensures room { vec_capacity door.new.got ≡ vec_capacity door.old.got }
    {
        let backoff = Backoff::new();
        for _ in rt.forever() {
            if let Some(letter) = self.take_kept(&mut door.kept, &mut door.places, number) {
                door.got.push_reserved((number, letter.mail.address()));
                return letter.mail;
            }
            if self.take_in(door) {
                backoff.reset();
            } else {
                backoff.snooze();
            }
        }
        unreachable!()
    }

    /// Takes the next letter out of the door's own box, where there is one and there is room for it.
    fn take_in(&self, door: &mut Door<N>) -> bool
        requires door { IsDoorOf self.now door.old }
        ensures door { IsDoorOf self.now door.new }
        ensures got { door.new.got ≡ door.old.got }
        ensures log { door.new.log ≡ door.old.log }
        ensures sent { door.new.sent ≡ door.old.sent }
    {
        let room = door.kept.len() < door.kept.capacity()
            && door.arrived.len() < door.arrived.capacity();
        if !room {
            return false;
        }
        let mail_box = &self.boxes[door.log as usize];
        let Some(letter) = mail_box.try_pop_as::<Gets>(&mut door.own) else {
            return false;
        };
        self.note(&mut door.places, letter.number, door.kept.len());
        door.arrived
            .push_reserved((letter.number, letter.mail.address()));
        door.kept.push_reserved(letter);
        true
    }

    /// Takes out the letter of this number, if it lies where the number's place was noted.
    ///
    /// What lies there is taken only if it has the number. So a wrong place never gives other mail, and nothing is proved of
    /// places: a letter that lies elsewhere would only be waited for. Of two letters of one number the later one is noted. In a
    /// replay there are none, since each number is posted once.
    fn take_kept(
        &self,
        kept: &mut Vec<Letter<N>>,
        places: &mut Vec<u32>,
        number: u64,
    ) -> Option<Letter<N>>
        ensures number { IfSome result (λ letter. letter.number ≡ number) }
        ensures moved { IfSome result (λ letter. IsPermutation (map pair_of kept.old.items)
            (pair_of letter ∷ map pair_of kept.new.items)) }
        ensures stays { result ≡ None → kept.new.items ≡ kept.old.items }
    {
        let place = *places.as_slice().get(self.rank(number)?)? as usize;
        if place >= kept.len() || kept[place].number != number {
            return None;
        }
        let letter = kept.swap_remove(place);
        if place < kept.len() {
            // The last letter came to lie in the hole.
            self.note(places, kept[place].number, place);
        }
        Some(letter)
    }

    /// Notes where in `kept` the letter of a number lies.
    fn note(&self, places: &mut Vec<u32>, number: u64, place: usize) {
        let Some(rank) = self.rank(number) else {
            return;
        };
        if let Some(noted) = places.get_mut(rank) {
            *noted = u32::try_from(place).unwrap_or(u32::MAX);
        }
    }

    /// The rank of a number among those that its receiver receives, if it is a hand-off's.
    fn rank(&self, number: u64) -> Option<usize> {
        let rank = self
            .ranks
            .as_slice()
            .get((number as usize).checked_sub(1)?)?;
        Some(*rank as usize)
    }
}
