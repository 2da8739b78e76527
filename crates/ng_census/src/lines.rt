//! The six lines of a census.
ghost use Rattle.std.specs.Prelude.{◌≡◌, ◌≤◌, ◌<◌, ◌+◌, ◌^◌, ◌++◌, length, vec_len, vec_capacity};
ghost use Rattle.ng_census.specs.Census.{census};
ghost use Rattle.ng_terms.specs.Calls.{op_count};
ghost use Rattle.ng_terms.specs.Reports.{count_line};

use crate::counting::count_ops;
use ng_report::{put, put_decimal};
use ng_terms::Plan;

/// The bytes of a line at most: a word of six letters, a space, twenty digits and a line feed.
const LINE: usize = 28;

/// The bytes of the six lines at most.
pub const CENSUS: usize = 168;

/// Appends the census of a plan. It takes no memory: so many bytes are to be reserved before.
pub fn render(plan: &Plan, text: &mut Vec<u8>)
    requires ops { op_count plan.now.logs < 2 ^ 64 }
    requires room { vec_len text.old + CENSUS ≤ vec_capacity text.old }
    ensures items { text.new.items ≡ text.old.items ++ census plan.now }
    ensures short { vec_len text.new ≤ vec_len text.old + CENSUS }
    ensures room { vec_capacity text.old ≤ vec_capacity text.new }
{
    let logs = plan.logs.as_slice();
    let counts = count_ops(logs);
    put_count(text, b"logs", logs.len() as u64);
    put_count(text, b"makes", counts.makes);
    put_count(text, b"ends", counts.ends);
    put_count(text, b"moves", counts.moves);
    put_count(text, b"handed", plan.receivers.len() as u64);
    put_count(text, b"skips", counts.skips);
}

fn put_count(text: &mut Vec<u8>, word: &[u8], n: u64)
    requires word { length word.now ≤ 6 }
    requires room { vec_len text.old + LINE ≤ vec_capacity text.old }
    ensures items { text.new.items ≡ text.old.items ++ count_line word.now n }
    ensures short { vec_len text.new ≤ vec_len text.old + LINE }
    ensures room { vec_capacity text.old ≤ vec_capacity text.new }
{
    put(text, word);
    put(text, b" ");
    put_decimal(text, n);
    put(text, b"\n");
}
