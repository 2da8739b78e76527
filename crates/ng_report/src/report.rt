//! The report of a plan's replies.
ghost use Rattle.std.specs.Prelude.{◌≡◌, ◌≤◌, ◌<◌, ◌+◌, ◌^◌, ◌++◌, vec_len, vec_capacity};
ghost use Rattle.ng_terms.specs.Reports.{report};
ghost use Rattle.ng_report.specs.Room.{room_of, HasReplies};
ghost use Rattle.ng_terms.specs.Calls.{op_count};

use crate::call_lines::put_calls;
use crate::counting::count_replies;
use crate::room::{OP, SUMMARY};
use crate::summary::put_summary;
use ng_terms::{Items, Mode, Op, Plan, Reply};

/// How many ops all logs have.
pub fn count_ops(logs: &[Items<Op>]) -> usize
    requires { op_count logs.now < 2 ^ 64 }
    ensures { result ≡ op_count logs.now }
{
    let mut count = 0;
    for ops in logs {
        count += ops.len();
    }
    count
}

/// How many bytes are to be reserved for a report of any replies of the plan: 142 for each op where calls are shown, and
/// 360 for the twelve counts.
pub fn report_room(plan: &Plan, calls_shown: bool) -> usize
    requires { room_of plan.now calls_shown < 2 ^ 64 }
    ensures { result ≡ room_of plan.now calls_shown }
{
    if calls_shown {
        OP * count_ops(plan.logs.as_slice()) + SUMMARY
    } else {
        SUMMARY
    }
}

/// Appends the report of a plan's replies, with a line for each call where calls are to be shown. `pages` are those that
/// the mapper has live. It takes no memory: `report_room` says how many bytes are to be reserved before.
pub fn render(
    plan: &Plan,
    mode: Mode,
    calls_shown: bool,
    replies: &[Items<Reply>],
    pages: u64,
    text: &mut Vec<u8>,
)
    requires answered { HasReplies plan.now.logs replies.now }
    requires ops { op_count plan.now.logs < 2 ^ 64 }
    requires room { vec_len text.old + room_of plan.now calls_shown ≤ vec_capacity text.old }
    ensures items { text.new.items ≡ text.old.items ++ report plan.now mode calls_shown replies.now pages }
    ensures short { vec_len text.new ≤ vec_len text.old + room_of plan.now calls_shown }
    ensures room { vec_capacity text.old ≤ vec_capacity text.new }
{
    let logs = plan.logs.as_slice();
    if calls_shown {
        put_calls(text, mode, logs, replies);
    }
    put_summary(text, logs.len() as u64, &count_replies(replies), pages);
}
