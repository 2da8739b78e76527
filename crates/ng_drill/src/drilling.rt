//! A script done on a heap.
ghost use Rattle.std.specs.Prelude.{◌≡◌, ◌≤◌, [], length};
ghost use Rattle.ng_drill.specs.Caps.{IsCapOf};
ghost use Rattle.ng_drill.specs.Desks.{HasRoom};
ghost use Rattle.ng_drill.specs.Transcripts.{IsTranscript};
ghost use Rattle.ng_script.specs.Reads.{IsWithinLimits};

use crate::answer::Answer;
use crate::room::Room;
use crate::steps::step;
use ng_group::Core;
use ng_heap::Heap;
use ng_mapper::Mapper;
use ng_policy::Rules;
use ng_script::Script;
use ng_space::{Hand, Name};
use ng_terms::Items;

/// Does the commands of a script in turn by a hand that has no block yet, and answers what came of each. The blocks that
/// stand at the end stay in the hand. It takes no memory.
pub fn drill<N: Name, M: Mapper, P: Rules>(
    heap: &Heap<N>,
    core: &mut Core<N, M, P>,
    hand: &mut Hand<N>,
    script: &Script,
    room: Room<N>,
) -> Items<Answer>
    requires limits { IsWithinLimits script.now }
    requires room { HasRoom room script.now N.facts.start.pages }
    requires cap { IsCapOf script.now.commands N.facts.start.cap }
    requires none { hand.old.view.held ≡ [] }
    requires blank { hand.old.entries ≡ [] }
    requires spare { length script.now.commands ≤ hand.old.spare }

    ensures transcript { IsTranscript N.facts.start.pages script.now result hand.new.entries }

    // What a close asks of the hand.
    ensures number { hand.new.number ≡ hand.old.number }
    ensures sent { hand.new.view.sent ≡ hand.old.view.sent }
    ensures taken { hand.new.view.taken ≡ hand.old.view.taken }
{
    let Room {
        mut desk,
        mut answers,
    } = room;
    for command in script.commands.as_slice() {
        let answer = step(heap, core, hand, &mut desk, *command);
        answers.push_reserved(answer);
    }
    desk.leave(hand);
    Items::from_vec(answers)
}
