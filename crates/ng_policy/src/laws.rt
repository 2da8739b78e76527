//! What holds of stored rules.
ghost use Rattle.std.specs.Prelude.{◌≡◌, ◌≤◌, ◌↔◌, IsTrue, min};
ghost use Rattle.ng_policy.specs.Ask.{AskInRange, SpareInRange, IsCount};
ghost use Rattle.ng_policy.specs.Musl.{musl_slots, IsWorthKeeping};

use crate::ask::{Ask, Spare};
use crate::musl::{musl_count, musl_keep};
use crate::policy::Policy;
use crate::rules::{Kept, Rules};

/// Rules that are stored count as they do by themselves.
pub fn stored_count<P: Rules + Drop>(rules: P, ask: Ask) -> u32
    requires good { P.good rules }
    requires ask { AskInRange ask }
    ensures allowed { IsCount ask.class result }
    ensures answer { P.count_gives rules ask result }
{
    Kept::new(rules).count(ask)
}

/// Rules that are stored keep what they do by themselves.
pub fn stored_keep<P: Rules + Drop>(rules: P, spare: Spare) -> bool
    requires good { P.good rules }
    requires spare { SpareInRange spare }
    ensures { P.keep_gives rules spare result }
{
    Kept::new(rules).keep(spare)
}

/// A policy of musl's choices counts as they do.
pub fn musl_policy_counts(ask: Ask) -> u32
    requires { AskInRange ask }
    ensures { result ≡ musl_slots ask }
{
    stored_count(Policy::new(musl_count, musl_keep), ask)
}

/// A policy of musl's choices keeps what they do.
pub fn musl_policy_keeps(spare: Spare) -> bool
    requires { SpareInRange spare }
    ensures { IsTrue result ↔ IsWorthKeeping spare }
{
    stored_keep(Policy::new(musl_count, musl_keep), spare)
}

/// A policy may hold closures that capture: here the most slots that a group may have.
pub fn capped_policy_counts(ask: Ask, most: u32) -> u32
    requires ask { AskInRange ask }
    requires most { 1 ≤ most }
    ensures { result ≡ min (musl_slots ask) most }
{
    let count = move |ask: Ask| -> u32
        requires { AskInRange ask }
    { musl_count(ask).min(most) };
    stored_count(Policy::new(count, musl_keep), ask)
}
