// Single atomic steps of a hand.
ghost use Rattle.std.specs.Prelude.{◌≡◌, ◌*◌, ◌<◌, ◌≤◌, IfSome, OnSome};
ghost use Rattle.ng_space.specs.Tokens.{HasSlot};

use ng_space::{Hand, Name, Slot, Space};

/// Loads word 0 so often.
pub fn loads<N: Name>(space: &Space<N>, hand: &mut Hand<N>, count: u64)
    requires inside { 0 < 4096 * N.facts.start.pages }
{
    for _ in 0..count {
        space.load(hand, 0);
    }
}

/// Writes the first own cell of a slot so often.
pub fn stores<N: Name>(space: &Space<N>, hand: &mut Hand<N>, slot: &Slot<N>, count: u64)
    requires slot { HasSlot hand.old slot.now }
    ensures slot { HasSlot hand.new slot.now }
{
    let cell = slot.start() / 4 * 4;
    if cell < slot.end() {
        for _ in 0..count {
            space.store_own(hand, slot, cell, 0);
        }
    }
}

/// Tries so often to put a slot into a freed mask that has another word than the one named. `None`: it had that word.
pub fn exchanges<N: Name>(
    space: &Space<N>,
    hand: &mut Hand<N>,
    mut slot: Slot<N>,
    count: u64,
) -> Option<Slot<N>>
    requires slot { HasSlot hand.old slot }
    ensures slot { IfSome result (HasSlot hand.new) }
{
    for _ in 0..count {
        match space.push_step(hand, slot, 1 << 31) {
            Ok(()) => return None,
            Err((left, _)) => slot = left,
        }
    }
    Some(slot)
}
