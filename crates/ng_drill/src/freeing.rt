//! An address that is freed.
ghost use Rattle.std.specs.Prelude.{◌≡◌, ◌<◌, ◌≤◌, ◌++◌, ◌^◌, Some, length, vec_len};
ghost use Rattle.ng_drill.specs.Desks.{Books, HasState, IsDesk, KeepsRoom, Steps, fault_of};
ghost use Rattle.ng_drill.specs.States.{address_of};
ghost use Rattle.ng_drill.specs.Steps.{entries_of, free_entries};
ghost use Rattle.ng_drill.specs.declared.answer.Answer.TheVariants as answer;
ghost use Rattle.ng_script.specs.Reads.{IsNamedBelow};
ghost use Rattle.ng_script.specs.declared.command.Command.TheVariants as command;
ghost use Rattle.ng_script.specs.declared.command.Place.TheVariants as place;

use crate::answer::{AtFault, Freed};
use crate::desk::Desk;
use ng_group::Core;
use ng_heap::{AtRefusal, Heap};
use ng_mapper::Mapper;
use ng_policy::Rules;
use ng_script::Place;
use ng_space::{Hand, Name};

/// Frees the address of a place.
pub(crate) fn free<N: Name, M: Mapper, P: Rules>(
    heap: &Heap<N>,
    core: &mut Core<N, M, P>,
    hand: &mut Hand<N>,
    desk: &mut Desk<N>,
    place: Place,
) -> Freed
    requires spare { 1 ≤ hand.old.spare }
    requires named { IsNamedBelow (length desk.old.names.items) (command.Free place) }
    requires desk { IsDesk N.facts.start.pages (length desk.old.names.items) desk.old }
    requires at { HasState hand.old desk.old }
    requires few { vec_len desk.old.held < 2 ^ 32 }
    ensures steps { Steps N.facts.start.pages (command.Free place) (answer.Free result) hand.old desk.old hand.new desk.new }
    ensures desk { IsDesk N.facts.start.pages (length desk.old.names.items) desk.new }
    ensures room { KeepsRoom desk.old desk.new }
    ensures entries { hand.new.entries ≡ hand.old.entries ++ entries_of desk.old.names.items (command.Free place) (answer.Free result) }
    ensures books { Books hand.old hand.new }
{
    match desk.address(place) {
        Some(at) => free_at(heap, core, hand, desk, at),
        None => Freed::Absent,
    }
}

// Frees an address.
fn free_at<N: Name, M: Mapper, P: Rules>(
    heap: &Heap<N>,
    core: &mut Core<N, M, P>,
    hand: &mut Hand<N>,
    desk: &mut Desk<N>,
    at: u64,
) -> Freed
    requires spare { 1 ≤ hand.old.spare }
    requires desk { IsDesk N.facts.start.pages (length desk.old.names.items) desk.old }
    requires at { HasState hand.old desk.old }
    requires few { vec_len desk.old.held < 2 ^ 32 }
    ensures steps { Steps N.facts.start.pages (command.Free (place.At at)) (answer.Free result) hand.old desk.old hand.new desk.new }
    ensures desk { IsDesk N.facts.start.pages (length desk.old.names.items) desk.new }
    ensures names { desk.new.names ≡ desk.old.names }
    ensures room { KeepsRoom desk.old desk.new }
    ensures entries { hand.new.entries ≡ hand.old.entries ++ free_entries at result }
    ensures books { Books hand.old hand.new }
{
    let place = desk.place_at(at);
    match heap.free_in_place(core, hand, &mut desk.held, at, place) {
        Ok(()) => {
            if let Some(place) = place {
                desk.forget(at, place);
            }
            Freed::Done
        }
        Err(why) => Freed::Refused(fault_of(why)),
    }
}

// The fault of a refusal, without what was read for it.
fn fault_of(why: AtRefusal) -> AtFault
    ensures { result ≡ fault_of why }
{
    match why {
        AtRefusal::Bad(bad) => AtFault::Bad(bad.fault),
        AtRefusal::NotHeld => AtFault::NotHeld,
    }
}
