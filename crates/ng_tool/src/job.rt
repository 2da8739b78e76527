// What is made ready for a command, all of it before the first heap call.
ghost use Rattle.std.specs.Prelude.{◌≡◌, ◌≤◌, ◌*◌, [], length, vec_capacity};
ghost use Rattle.ng_report.specs.Room.{room_of};
ghost use Rattle.ng_terms.specs.Calls.{op_count};

use ng_script::Script;
use ng_terms::{Mode, Plan};

/// What a command comes to.
#[derive(Drop)]
pub enum Job {
    /// The ops of a plan are done.
    Replayed(Prepared),
    /// The commands of a script are done.
    Drilled(PreparedScript),
    /// A text is written, which needs no heap.
    Counted(Vec<u8>),
}

/// What a replay needs.
#[derive(Drop)]
pub struct Prepared {
    pub plan: Plan,
    /// How the run makes blocks.
    pub mode: Mode,
    /// Whether the report has a line for each call.
    pub calls_shown: bool,
    /// Room for the report.
    pub text: Vec<u8>,
    ghost few: { length plan.logs ≤ 16 },
    ghost short: { op_count plan.logs ≤ 1000000 },
    ghost no_text: { text.items ≡ [] },
    ghost text_room: { room_of plan calls_shown ≤ vec_capacity text },
}

/// What a drill needs.
#[derive(Drop)]
pub struct PreparedScript {
    pub script: Script,
    /// Room for the transcript.
    pub text: Vec<u8>,
    ghost short: { length script.commands ≤ 1000000 },
    ghost no_text: { text.items ≡ [] },
    ghost text_room: { 32 * length script.commands ≤ vec_capacity text },
}
