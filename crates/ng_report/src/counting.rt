//! The counts of all replies, in one pass.
ghost use Rattle.std.specs.Prelude.{◌≡◌, ◌+◌, ◌^◌, ◌<◌, ◌≤◌, length, count_by};
ghost use Rattle.ng_report.specs.Counts.{Raises, IsWithin, IsCount};
ghost use Rattle.ng_report.specs.Room.{reply_count};

use crate::counts::Counts;
use ng_terms::{Items, Reply};

fn count_log(counts: &mut Counts, replies: &[Reply])
    requires within { IsWithin counts.old }
    requires room { counts.old.replies + length replies.now < 2 ^ 64 }
    ensures raised { Raises counts.old counts.new (λ test. count_by test replies.now) }
    ensures replies { counts.new.replies ≡ counts.old.replies + length replies.now }
    ensures within { IsWithin counts.new }
{
    for reply in replies {
        counts.add(reply);
    }
}

/// Counts the replies of all logs.
pub fn count_replies(replies: &[Items<Reply>]) -> Counts
    requires { reply_count replies.now < 2 ^ 64 }
    ensures { IsCount result replies.now }
{
    let mut counts = Counts::NONE;
    for log in replies {
        count_log(&mut counts, log.as_slice());
    }
    counts
}
