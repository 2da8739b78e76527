//! The lines of all calls.
ghost use Rattle.std.specs.Prelude.{◌≡◌, ◌≤◌, ◌+◌, ◌*◌, ◌++◌, length, vec_len, vec_capacity};
ghost use Rattle.ng_terms.specs.Reports.{log_lines, call_lines};
ghost use Rattle.ng_report.specs.Room.{HasReplies};
ghost use Rattle.ng_terms.specs.Calls.{op_count};

use crate::op_lines::put_op;
use crate::room::OP;
use ng_terms::{Items, Mode, Op, Reply};

fn put_log(text: &mut Vec<u8>, mode: Mode, number: u64, ops: &[Op], replies: &[Reply])
    requires answered { length replies.now ≡ length ops.now }
    requires room { vec_len text.old + OP * length ops.now ≤ vec_capacity text.old }
    ensures items { text.new.items ≡ text.old.items ++ log_lines mode number ops.now replies.now }
    ensures short { vec_len text.new ≤ vec_len text.old + OP * length ops.now }
    ensures room { vec_capacity text.old ≤ vec_capacity text.new }
{
    for (op, reply) in ops.iter().zip(replies) {
        put_op(text, number, mode, op, reply);
    }
}

/// Appends the lines of all ops, log after log.
pub fn put_calls(text: &mut Vec<u8>, mode: Mode, logs: &[Items<Op>], replies: &[Items<Reply>])
    requires answered { HasReplies logs.now replies.now }
    requires room { vec_len text.old + OP * op_count logs.now ≤ vec_capacity text.old }
    ensures items { text.new.items ≡ text.old.items ++ call_lines mode logs.now replies.now }
    ensures short { vec_len text.new ≤ vec_len text.old + OP * op_count logs.now }
    ensures room { vec_capacity text.old ≤ vec_capacity text.new }
{
    let mut number = 0;
    for (ops, replies) in logs.iter().zip(replies) {
        number += 1;
        put_log(text, mode, number, ops.as_slice(), replies.as_slice());
    }
}
