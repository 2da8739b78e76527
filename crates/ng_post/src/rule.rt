//! The rule of a box, and what its passes may do.
ghost use Rattle.std.specs.Prelude.{◌≡◌, ◌∷◌, [], ◌++◌, length, map};
ghost use Rattle.ng_post.specs.Letters.{note_of, pair_of};
ghost use Rattle.ng_post.specs.Box.{AreAllOf};

use crate::mail::Letter;
use crate::view::View;
use crossbeam_queue::protocol::{Join, Lesson, Outcome, Protocol, Split};
use crossbeam_queue::{Pass, RuledArrayQueue};
use ng_space::Name;

/// What is taken out of a box is what was put in, of each sender in its order.
pub struct Delivered;

impl<N: Name> Protocol<Letter<N>, View> for Delivered {
    ghost use Rattle.std.specs.Prelude.{true, []};
    ghost use Rattle.ng_post.specs.Box.{Delivers, leader};

    ghost holds = { Delivers };

    ghost first = { leader 0 true [] [] };
}

/// A letter is put in.
pub struct Puts;

impl<N: Name> Outcome<Letter<N>, View> for Puts {
    ghost then = { λ v x w. w ≡ record v { put = v.put ++ pair_of x ∷ [] } };
}

/// A letter is taken out.
pub struct Gets;

impl<N: Name> Outcome<Letter<N>, View> for Gets {
    ghost then = { λ v x w. w ≡ record v { got = v.got ++ note_of x ∷ [] } };
}

/// One more sender.
pub struct Sends;

impl Split<View> for Sends {
    ghost use Rattle.std.specs.Prelude.{[], ◌+◌};
    ghost use Rattle.ng_post.specs.Box.{sender};

    ghost left = { λ v. record v { made = v.made + 1 } };

    ghost right = { λ v. sender v.made [] };
}

/// Another pass takes the letters out.
pub struct Reads;

impl Split<View> for Reads {
    ghost use Rattle.std.specs.Prelude.{[], false};
    ghost use Rattle.ng_post.specs.Box.{reader};

    ghost left = { λ v. record v { gets = false; got = [] } };

    ghost right = { λ v. reader v.got };
}

impl Join<View> for Reads {
    ghost use Rattle.std.specs.Prelude.{true};
    ghost use Rattle.ng_post.specs.Box.{spent};

    ghost both = { λ v w. record v { gets = true; got = w.got } };

    ghost spent = { spent };
}

/// A sender has ended.
pub struct Ends;

impl Join<View> for Ends {
    ghost use Rattle.std.specs.Prelude.{[], ◌∷◌, ◌++◌};
    ghost use Rattle.ng_post.specs.Box.{spent};

    ghost both = { λ v w. record v { known = v.known ++ w.put ∷ [] } };

    ghost spent = { spent };
}

/// What the reader got is what the senders put in, but for what is left.
pub struct Totals;

impl<N: Name> Lesson<Letter<N>, View> for Totals {
    ghost fact = { λ v items. length v.known ≡ v.made
        → AreAllOf v.known (v.got ++ map note_of items) };
}

/// A log's box.
pub type MailBox<N> = RuledArrayQueue<Letter<N>, View, Delivered>;

/// A pass to a box.
pub type Key<N> = Pass<Letter<N>, View>;
