// The words of page 0, which follow the core.
ghost use Rattle.std.specs.Prelude.{◌≡◌, ◌+◌, ◌%◌, ◌<◌, ◌^◌, slice_index};
ghost use Rattle.ng_lists.specs.Rings.{ring_of};
ghost use Rattle.ng_view.specs.LockSteps.{active_set, counter_set};
ghost use Rattle.ng_group.specs.States.{first_of};

use ng_lists::Rings;
use ng_space::{LockSeat, Name, Space};

/// The first meta of the ring of a class, or 0 where there is none.
pub(crate) fn first_word(rings: &Rings, class: u32) -> u64
    requires class { class < 48 }
    ensures { result ≡ first_of (ring_of rings.now class) }
{
    rings.first(class).unwrap_or(0)
}

/// Stores the first meta of the ring of a class, or 0, in the class's active word. Nothing is done where it is there, in
/// `was`.
pub(crate) fn follow<N: Name>(
    space: &Space<N>,
    seat: &mut LockSeat<N>,
    rings: &Rings,
    class: u32,
    was: u64,
)
    requires class { class < 48 }
    requires pages { rings.now.pages ≡ N.facts.start.pages }
    requires was { was ≡ slice_index seat.old.desk.active class }
    ensures { seat.new ≡ active_set seat.old class (first_of (ring_of rings.now class)) }
{
    rings.stand_once();
    let first = first_word(rings, class);
    if first != was {
        space.set_active(seat, class, first);
    }
}

/// Counts a run that was mapped for a group, and stores the counter's word.
pub(crate) fn count_run<N: Name>(space: &Space<N>, seat: &mut LockSeat<N>, counter: &mut u64)
    ensures counted { counter.new ≡ (counter.old + 1) % 2 ^ 64 }
    ensures word { seat.new ≡ counter_set seat.old (counter.new % 2 ^ 32) }
{
    *counter = counter.wrapping_add(1);
    space.set_counter(seat, (*counter & 0xffff_ffff) as u32);
}
