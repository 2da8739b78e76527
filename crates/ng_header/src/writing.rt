ghost use Rattle.std.specs.Prelude.{◌-◌, ◌<◌, ◌^◌, ◌≡◌, ◌≤◌, ℕ};
ghost use Rattle.ng_header.specs.Tail.{ReadsBack, trailer_of};

use crate::tail::Trailer;

/// The trailer of a block with this many bytes between its own last one and its slot's end.
pub fn trailer(reserved: u64) -> Trailer
    requires { reserved < 2 ^ 32 }
    ensures value { result ≡ trailer_of reserved }
    ensures reads_back { (gap : ℕ) → reserved ≤ gap → ReadsBack result gap (gap - reserved) }
{
    let zero_at = Some(reserved);
    match reserved {
        0 => Trailer {
            field: 0,
            zero_at: None,
            word: None,
        },
        1..=4 => Trailer {
            field: reserved as u32,
            zero_at,
            word: None,
        },
        _ => Trailer {
            field: 5,
            zero_at,
            word: Some(reserved as u32),
        },
    }
}
