ghost use Rattle.std.specs.Prelude.{◌-◌, ◌<◌, ◌^◌, ◌≡◌, ◌≤◌};
ghost use Rattle.std.specs.Option.{ForSome};
ghost use Rattle.ng_header.specs.Cycle.{cycle_of, next_offset, power_above};

/// The offset of a slot's next block from the slot's start, in units of 16 bytes.
///
/// `old` is the 16-bit field that the header at the start keeps, or `None` where it keeps none.
/// `slack` is how many units the slot has to spare, and `counter` counts mappings.
#[tactic(auto, using(crate::proofs::CycleLemmas::cycle_steps))]
pub fn cycle(old: Option<u32>, slack: u64, counter: u64) -> u64
    requires { ForSome old (λ field. field < 2 ^ 16) }
    ensures value { result ≡ cycle_of old slack counter }
    ensures within { result ≤ slack }
{
    let offset = wanted(old, counter);
    if offset <= slack {
        return offset;
    }
    let masked = offset & smear(slack);
    if masked > slack {
        masked - (slack + 1)
    } else {
        masked
    }
}

// The offset that is wanted, whatever the slack.
fn wanted(old: Option<u32>, counter: u64) -> u64
    requires { ForSome old (λ field. field < 2 ^ 16) }
    ensures value { result ≡ next_offset old counter }
    ensures low { result < 256 }
{
    match old {
        Some(field) => u64::from(field + 1) & 255,
        None => counter & 255,
    }
}

// All bits from the highest one of `slack` down.
fn smear(slack: u64) -> u64
    requires { slack < 256 }
    ensures { result ≡ power_above slack - 1 }
{
    let pairs = slack | slack >> 1;
    let nibbles = pairs | pairs >> 2;
    nibbles | nibbles >> 4
}
