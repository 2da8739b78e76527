// How many bytes a request asks for.
ghost use Rattle.std.specs.Prelude.{◌≡◌, ◌*◌, ◌<◌, ◌↔◌, IfSome, IsNone};
ghost use Rattle.ng_frame.specs.Puts.{asked_for};
ghost use Rattle.ng_terms.specs.Heap.{IsTooLarge, large};

use ng_history::LARGE;

// An align from this one on is too large.
const WIDE: u64 = 1 << 35;

// The bytes that `count` elements of `size` bytes with an align ask for: their length, and the room to align in.
// There are none where that is beyond every heap.
pub(crate) fn asked_bytes(count: u64, size: u64, align: u64) -> Option<u64>
    ensures none { IsNone result ↔ IsTooLarge count size align }
    ensures asked { IfSome result (λ asked. asked ≡ asked_for (count * size) align) }
    ensures small { IfSome result (λ asked. asked < large) }
{
    if align >= WIDE {
        return None;
    }
    let bytes = count.checked_mul(size)?;
    let asked = bytes.checked_add(align.max(16) - 16)?;
    if asked >= LARGE {
        return None;
    }
    Some(asked)
}
