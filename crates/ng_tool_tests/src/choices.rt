// Musl's choices, as functions of this crate: a function of another one can't be handed on as a value.
ghost use Rattle.std.specs.Prelude.{◌≡◌, ◌↔◌, IsTrue};
ghost use Rattle.ng_policy.specs.Ask.{AskInRange, IsCount};
ghost use Rattle.ng_policy.specs.Musl.{musl_slots, IsWorthKeeping};

use ng_policy::{Ask, Spare, musl_count, musl_keep};

/// How many slots a new group has.
pub fn count(ask: Ask) -> u32
    requires { AskInRange ask }
    ensures value { result ≡ musl_slots ask }
    ensures allowed { IsCount ask.class result }
{
    musl_count(ask)
}

/// Whether a group whose slots are all free is kept.
pub fn keep(spare: Spare) -> bool
    ensures { IsTrue result ↔ IsWorthKeeping spare }
{
    musl_keep(spare)
}
