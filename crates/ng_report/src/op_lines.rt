//! The lines of one op.
ghost use Rattle.std.specs.Prelude.{◌≡◌, ◌≤◌, ◌+◌, ◌++◌, length, codes, vec_len, vec_capacity};
ghost use Rattle.std.specs.Fmt.{decimal};
ghost use Rattle.ng_terms.specs.Calls.{size_of};
ghost use Rattle.ng_terms.specs.Reports.{hex, line, name_of, make_text, outcome_text, make_line, move_line, refusal_line, op_lines};

use crate::room::{LINE, NAME_LINE, OP};
use crate::text::{put, put_decimal, put_hex};
use ng_terms::{Made, Mode, Op, Reply};

fn size_of(op: &Op) -> u64
    ensures { result ≡ size_of op.now }
{
    match *op {
        Op::Make { size, .. } | Op::Move { size, .. } => size,
        Op::Free { .. } => 0,
    }
}

fn name_of(op: &Op) -> u64
    ensures { result ≡ name_of op.now }
{
    match *op {
        Op::Make { name, .. } | Op::Free { name, .. } => name,
        Op::Move { old, .. } => old,
    }
}

fn put_make(text: &mut Vec<u8>, mode: Mode, size: u64)
    requires { vec_len text.old + 45 ≤ vec_capacity text.old }
    ensures items { text.new.items ≡ text.old.items ++ make_text mode size }
    ensures short { vec_len text.new ≤ vec_len text.old + 45 }
    ensures room { vec_capacity text.old ≤ vec_capacity text.new }
{
    if let Some(align) = mode.align {
        put(text, b"aligned ");
        put_hex(text, align);
        put(text, b" ");
    } else if mode.zero {
        put(text, b"calloc ");
    } else {
        put(text, b"malloc ");
    }
    put_hex(text, size);
}

fn put_move(text: &mut Vec<u8>, old: u64, size: u64)
    requires { vec_len text.old + 45 ≤ vec_capacity text.old }
    ensures items { text.new.items ≡ text.old.items ++ (codes "realloc " ++ hex old ++ codes " " ++ hex size) }
    ensures short { vec_len text.new ≤ vec_len text.old + 45 }
    ensures room { vec_capacity text.old ≤ vec_capacity text.new }
{
    put(text, b"realloc ");
    put_hex(text, old);
    put(text, b" ");
    put_hex(text, size);
}

fn put_outcome(text: &mut Vec<u8>, made: Made)
    requires { vec_len text.old + 29 ≤ vec_capacity text.old }
    ensures items { text.new.items ≡ text.old.items ++ outcome_text made }
    ensures short { vec_len text.new ≤ vec_len text.old + 29 }
    ensures room { vec_capacity text.old ≤ vec_capacity text.new }
{
    match made {
        Made::Given { at } => put_hex(text, at),
        Made::NoMemory { excuse } => {
            put(text, b"NoMemory ");
            put_decimal(text, excuse);
        }
        Made::TooLarge => put(text, b"TooLarge"),
        Made::BadAlign => put(text, b"BadAlign"),
    }
}

fn put_make_line(text: &mut Vec<u8>, log: u64, mode: Mode, size: u64, made: Made)
    requires { vec_len text.old + LINE ≤ vec_capacity text.old }
    ensures items { text.new.items ≡ text.old.items ++ make_line log mode size made }
    ensures short { vec_len text.new ≤ vec_len text.old + LINE }
    ensures room { vec_capacity text.old ≤ vec_capacity text.new }
{
    put_decimal(text, log);
    put(text, b" ");
    put_make(text, mode, size);
    put(text, b" ");
    put_outcome(text, made);
    put(text, b"\n");
}

fn put_move_line(text: &mut Vec<u8>, log: u64, old: u64, size: u64, made: Made)
    requires { vec_len text.old + LINE ≤ vec_capacity text.old }
    ensures items { text.new.items ≡ text.old.items ++ move_line log old size made }
    ensures short { vec_len text.new ≤ vec_len text.old + LINE }
    ensures room { vec_capacity text.old ≤ vec_capacity text.new }
{
    put_decimal(text, log);
    put(text, b" ");
    put_move(text, old, size);
    put(text, b" ");
    put_outcome(text, made);
    put(text, b"\n");
}

/// A line of a word of five letters, the space after it included, and a number.
fn put_word_line(text: &mut Vec<u8>, log: u64, word: &[u8; 5], n: u64)
    requires { vec_len text.old + NAME_LINE ≤ vec_capacity text.old }
    ensures items { text.new.items ≡ text.old.items ++ line log (word.now ++ hex n) }
    ensures short { vec_len text.new ≤ vec_len text.old + NAME_LINE }
    ensures room { vec_capacity text.old ≤ vec_capacity text.new }
{
    put_decimal(text, log);
    put(text, b" ");
    put(text, word);
    put_hex(text, n);
    put(text, b"\n");
}

fn put_refusal(text: &mut Vec<u8>, log: u64, mode: Mode, size: u64, old: Option<u64>, made: Made)
    requires { vec_len text.old + LINE ≤ vec_capacity text.old }
    ensures items { text.new.items ≡ text.old.items ++ refusal_line log mode size old made }
    ensures short { vec_len text.new ≤ vec_len text.old + LINE }
    ensures room { vec_capacity text.old ≤ vec_capacity text.new }
{
    match old {
        Some(old) => put_move_line(text, log, old, size, made),
        None => put_make_line(text, log, mode, size, made),
    }
}

/// Appends the lines of an op of the log with this number.
pub fn put_op(text: &mut Vec<u8>, log: u64, mode: Mode, op: &Op, reply: &Reply)
    requires { vec_len text.old + OP ≤ vec_capacity text.old }
    ensures items { text.new.items ≡ text.old.items ++ op_lines log mode op.now reply.now }
    ensures short { vec_len text.new ≤ vec_len text.old + OP }
    ensures room { vec_capacity text.old ≤ vec_capacity text.new }
{
    let size = size_of(op);
    match *reply {
        Reply::Given { at } => put_make_line(text, log, mode, size, Made::Given { at }),
        Reply::Freed { at } => put_word_line(text, log, b"free ", at),
        Reply::Moved { old, at } => put_move_line(text, log, old, size, Made::Given { at }),
        Reply::NoMemory { old, excuse } => {
            put_refusal(text, log, mode, size, old, Made::NoMemory { excuse });
        }
        Reply::TooLarge { old } => put_refusal(text, log, mode, size, old, Made::TooLarge),
        Reply::BadAlign => put_make_line(text, log, mode, size, Made::BadAlign),
        Reply::Skipped => put_word_line(text, log, b"skip ", name_of(op)),
        Reply::Absent => put_word_line(text, log, b"none ", name_of(op)),
        Reply::Fresh { skipped, made } => {
            let word = if skipped { b"skip " } else { b"none " };
            put_word_line(text, log, word, name_of(op));
            put_make_line(text, log, mode, size, made);
        }
    }
}
