//! One command of a script, by a hand at a desk.
ghost use Rattle.std.specs.Prelude.{◌≡◌, ◌<◌, ◌≤◌, ◌++◌, ◌^◌, length, vec_len, vec_capacity};
ghost use Rattle.ng_drill.specs.Desks.{Books, HasState, IsDesk, KeepsRoom, Steps};
ghost use Rattle.ng_drill.specs.Steps.{entries_of};
ghost use Rattle.ng_drill.specs.declared.answer.Answer.TheVariants as answer;
ghost use Rattle.ng_script.specs.Reads.{IsNamedBelow};
ghost use Rattle.ng_script.specs.declared.command.Command.TheVariants as command;
ghost use Rattle.ng_terms.specs.Heap.{large};
ghost use Rattle.ng_drill.specs.Caps.{size_of};

use crate::answer::{Answer, Malloced, Measured, Written};
use crate::desk::Desk;
use crate::freeing::free;
use ng_group::Core;
use ng_heap::{AllocRefusal, Heap};
use ng_mapper::Mapper;
use ng_policy::Rules;
use ng_script::Command;
use ng_space::{Hand, Name};

/// Does a command.
pub(crate) fn step<N: Name, M: Mapper, P: Rules>(
    heap: &Heap<N>,
    core: &mut Core<N, M, P>,
    hand: &mut Hand<N>,
    desk: &mut Desk<N>,
    command: Command,
) -> Answer
    requires spare { 1 ≤ hand.old.spare }
    requires cap { size_of command < large → size_of command ≤ N.facts.start.cap }
    requires named { IsNamedBelow (length desk.old.names.items) command }
    requires desk { IsDesk N.facts.start.pages (length desk.old.names.items) desk.old }
    requires at { HasState hand.old desk.old }
    requires room { vec_len desk.old.held < vec_capacity desk.old.held }
    requires few { vec_len desk.old.held < 2 ^ 32 }
    ensures steps { Steps N.facts.start.pages command result hand.old desk.old hand.new desk.new }
    ensures desk { IsDesk N.facts.start.pages (length desk.old.names.items) desk.new }
    ensures room { KeepsRoom desk.old desk.new }
    ensures entries { hand.new.entries ≡ hand.old.entries ++ entries_of desk.old.names.items command result }
    ensures books { Books hand.old hand.new }
{
    match command {
        Command::Malloc { name, size } => {
            Answer::Malloc(malloc(heap, core, hand, desk, name, size))
        }
        Command::Free { place } => Answer::Free(free(heap, core, hand, desk, place)),
        Command::Write { name, offset, byte } => {
            Answer::Write(write(heap, hand, desk, name, offset, byte))
        }
        Command::Usable { name } => Answer::Usable(usable(heap, hand, desk, name)),
    }
}

// Asks for a block of so many bytes for a name.
fn malloc<N: Name, M: Mapper, P: Rules>(
    heap: &Heap<N>,
    core: &mut Core<N, M, P>,
    hand: &mut Hand<N>,
    desk: &mut Desk<N>,
    name: u32,
    size: u64,
) -> Malloced
    requires spare { 1 ≤ hand.old.spare }
    requires cap { size < large → size ≤ N.facts.start.cap }
    requires named { name < length desk.old.names.items }
    requires desk { IsDesk N.facts.start.pages (length desk.old.names.items) desk.old }
    requires at { HasState hand.old desk.old }
    requires room { vec_len desk.old.held < vec_capacity desk.old.held }
    requires few { vec_len desk.old.held < 2 ^ 32 }
    ensures steps { Steps N.facts.start.pages (command.Malloc name size) (answer.Malloc result) hand.old desk.old hand.new desk.new }
    ensures desk { IsDesk N.facts.start.pages (length desk.old.names.items) desk.new }
    ensures room { KeepsRoom desk.old desk.new }
    ensures entries { hand.new.entries ≡ hand.old.entries ++ entries_of desk.old.names.items (command.Malloc name size) (answer.Malloc result) }
    ensures books { Books hand.old hand.new }
{
    match heap.malloc_in(core, hand, size) {
        Ok(block) => {
            let at = block.at();
            let _gap = block.gap();
            desk.names[name as usize] = Some(at);
            desk.insert(block);
            Malloced::Given { at }
        }
        Err(why) => {
            desk.names[name as usize] = None;
            match why {
                AllocRefusal::NoMemory { excuse } => Malloced::NoMemory { excuse },
                AllocRefusal::TooLarge => Malloced::TooLarge,
            }
        }
    }
}

// Writes a byte so far behind a name's address.
fn write<N: Name>(
    heap: &Heap<N>,
    hand: &mut Hand<N>,
    desk: &Desk<N>,
    name: u32,
    offset: u64,
    byte: u8,
) -> Written
    requires named { name < length desk.now.names.items }
    requires desk { IsDesk N.facts.start.pages (length desk.now.names.items) desk.now }
    requires at { HasState hand.old desk.now }
    ensures steps { Steps N.facts.start.pages (command.Write name offset byte) (answer.Write result) hand.old desk.now hand.new desk.now }
    ensures entries { hand.new.entries ≡ hand.old.entries }
    ensures books { Books hand.old hand.new }
{
    let Some(place) = desk.place_of(name) else {
        return Written::Absent;
    };
    let block = &desk.held[place];
    if block.gap() <= offset {
        return Written::Range;
    }
    heap.scribble(hand, block, offset, byte);
    Written::Done
}

// Asks for the usable size at a name's address.
fn usable<N: Name>(heap: &Heap<N>, hand: &mut Hand<N>, desk: &Desk<N>, name: u32) -> Measured
    requires named { name < length desk.now.names.items }
    requires desk { IsDesk N.facts.start.pages (length desk.now.names.items) desk.now }
    requires at { HasState hand.old desk.now }
    ensures steps { Steps N.facts.start.pages (command.Usable name) (answer.Usable result) hand.old desk.now hand.new desk.now }
    ensures entries { hand.new.entries ≡ hand.old.entries }
    ensures books { Books hand.old hand.new }
{
    let Some(place) = desk.place_of(name) else {
        return Measured::Absent;
    };
    match heap.usable_size(hand, &desk.held[place]) {
        Ok(len) => Measured::Bytes(len),
        Err(damage) => Measured::Damaged(damage),
    }
}
