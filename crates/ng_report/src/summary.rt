//! The twelve counts at the end of a report.
ghost use Rattle.std.specs.Prelude.{◌≡◌, ◌≤◌, ◌+◌, ◌++◌, length, vec_len, vec_capacity};
ghost use Rattle.ng_terms.specs.Reports.{count_line};
ghost use Rattle.ng_report.specs.Summary.{summary_of};

use crate::counts::Counts;
use crate::room::{COUNT_LINE, SUMMARY};
use crate::text::{put, put_decimal};

fn put_count(text: &mut Vec<u8>, word: &[u8], n: u64)
    requires word { length word.now ≤ 8 }
    requires room { vec_len text.old + COUNT_LINE ≤ vec_capacity text.old }
    ensures items { text.new.items ≡ text.old.items ++ count_line word.now n }
    ensures short { vec_len text.new ≤ vec_len text.old + COUNT_LINE }
    ensures room { vec_capacity text.old ≤ vec_capacity text.new }
{
    put(text, word);
    put(text, b" ");
    put_decimal(text, n);
    put(text, b"\n");
}

/// Appends the twelve lines.
pub fn put_summary(text: &mut Vec<u8>, logs: u64, counts: &Counts, pages: u64)
    requires { vec_len text.old + SUMMARY ≤ vec_capacity text.old }
    ensures items { text.new.items ≡ text.old.items ++ summary_of logs counts.now pages }
    ensures short { vec_len text.new ≤ vec_len text.old + SUMMARY }
    ensures room { vec_capacity text.old ≤ vec_capacity text.new }
{
    put_count(text, b"logs", logs);
    put_count(text, b"calls", counts.calls);
    put_count(text, b"given", counts.given);
    put_count(text, b"taken", counts.taken);
    put_count(text, b"resized", counts.resized);
    put_count(text, b"nomemory", counts.no_memory);
    put_count(text, b"toolarge", counts.too_large);
    put_count(text, b"badalign", counts.bad_align);
    put_count(text, b"skipped", counts.skipped);
    put_count(text, b"absent", counts.absent);
    put_count(text, b"left", counts.given.saturating_sub(counts.taken));
    put_count(text, b"pages", pages);
}
