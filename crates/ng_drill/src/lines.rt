//! The transcript's text, into memory that was reserved before.
ghost use Rattle.std.specs.Prelude.{◌≡◌, ◌≤◌, ◌<◌, ◌+◌, ◌*◌, ◌^◌, ◌++◌, length, vec_len, vec_capacity};
ghost use Rattle.ng_drill.specs.Lines.{fault_text, line_of, pointer_text, damage_text, malloced_text, freed_text, written_text, measured_text, transcript};

use crate::answer::{Answer, AtFault, Freed, Malloced, Measured, Written};
use ng_heap::{Damage, PointerFault};
use ng_report::{put, put_decimal, put_hex};

/// The bytes of a line at most: a letter and a space, `NoMemory` with a space and twenty digits, and a line feed.
pub const LINE: usize = 32;

/// How many bytes are to be reserved for the transcript of so many answers.
pub fn text_room(answers: usize) -> usize
    requires { LINE * answers < 2 ^ 64 }
    ensures { result ≡ LINE * answers }
{
    LINE * answers
}

/// Appends the transcript of answers. It takes no memory: `text_room` says how many bytes are to be reserved before.
pub fn render(answers: &[Answer], text: &mut Vec<u8>)
    requires { vec_len text.old + LINE * length answers.now ≤ vec_capacity text.old }
    ensures items { text.new.items ≡ text.old.items ++ transcript answers.now }
    ensures short { vec_len text.new ≤ vec_len text.old + LINE * length answers.now }
{
    for answer in answers {
        put_line(text, *answer);
    }
}

// Appends the line of an answer.
fn put_line(text: &mut Vec<u8>, answer: Answer)
    requires { vec_len text.old + LINE ≤ vec_capacity text.old }
    ensures items { text.new.items ≡ text.old.items ++ line_of answer }
    ensures short { vec_len text.new ≤ vec_len text.old + LINE }
    ensures room { vec_capacity text.old ≤ vec_capacity text.new }
{
    match answer {
        Answer::Malloc(made) => {
            put(text, b"m ");
            put_malloced(text, made);
        }
        Answer::Free(freed) => {
            put(text, b"f ");
            put(text, freed_name(freed));
        }
        Answer::Write(written) => {
            put(text, b"w ");
            put(text, written_name(written));
        }
        Answer::Usable(measured) => {
            put(text, b"u ");
            put_measured(text, measured);
        }
    }
    put(text, b"\n");
}

// Appends an address, or the name of a refusal.
fn put_malloced(text: &mut Vec<u8>, made: Malloced)
    requires { vec_len text.old + 29 ≤ vec_capacity text.old }
    ensures items { text.new.items ≡ text.old.items ++ malloced_text made }
    ensures short { vec_len text.new ≤ vec_len text.old + 29 }
    ensures room { vec_capacity text.old ≤ vec_capacity text.new }
{
    match made {
        Malloced::Given { at } => put_hex(text, at),
        Malloced::NoMemory { excuse } => {
            put(text, b"NoMemory ");
            put_decimal(text, excuse);
        }
        Malloced::TooLarge => put(text, b"TooLarge"),
    }
}

// Appends a length, or what is wrong.
fn put_measured(text: &mut Vec<u8>, measured: Measured)
    requires { vec_len text.old + 18 ≤ vec_capacity text.old }
    ensures items { text.new.items ≡ text.old.items ++ measured_text measured }
    ensures short { vec_len text.new ≤ vec_len text.old + 18 }
    ensures room { vec_capacity text.old ≤ vec_capacity text.new }
{
    match measured {
        Measured::Bytes(len) => put_hex(text, len),
        Measured::Damaged(damage) => put(text, damage_name(damage)),
        Measured::Absent => put(text, b"none"),
    }
}

// What came of a free, in a word.
fn freed_name(freed: Freed) -> &'static [u8]
    ensures name { result.now ≡ freed_text freed }
    ensures short { length result.now ≤ 11 }
{
    match freed {
        Freed::Done => b"ok",
        Freed::Refused(AtFault::Bad(fault)) => pointer_name(fault),
        Freed::Refused(AtFault::NotHeld) => b"NotHeld",
        Freed::Absent => b"none",
    }
}

// What came of a write, in a word.
fn written_name(written: Written) -> &'static [u8]
    ensures name { result.now ≡ written_text written }
    ensures short { length result.now ≤ 5 }
{
    match written {
        Written::Done => b"ok",
        Written::Range => b"Range",
        Written::Absent => b"none",
    }
}

// The name of a damage.
fn damage_name(damage: Damage) -> &'static [u8]
    ensures name { result.now ≡ damage_text damage }
    ensures short { length result.now ≤ 11 }
{
    match damage {
        Damage::BadReserved => b"BadReserved",
        Damage::Overrun => b"Overrun",
    }
}

// The name of a failed check.
fn pointer_name(fault: PointerFault) -> &'static [u8]
    ensures name { result.now ≡ pointer_text fault }
    ensures short { length result.now ≤ 11 }
{
    match fault {
        PointerFault::Misaligned => b"Misaligned",
        PointerFault::Outside => b"Outside",
        PointerFault::BadWide => b"BadWide",
        PointerFault::NotGroup => b"NotGroup",
        PointerFault::BadIndex => b"BadIndex",
        PointerFault::Available => b"Available",
        PointerFault::Freed => b"Freed",
        PointerFault::BadSecret => b"BadSecret",
        PointerFault::BadOffset => b"BadOffset",
        PointerFault::BadClass => b"BadClass",
        PointerFault::BadMaplen => b"BadMaplen",
        PointerFault::BadReserved => b"BadReserved",
        PointerFault::Overrun => b"Overrun",
        PointerFault::EndByte => b"EndByte",
    }
}
