ghost use Rattle.std.specs.Prelude.{◌≡◌, ◌∷◌, ℕ, List, codes};
ghost use Rattle.ng_mtrace.specs.Kinds.{kind_of, kind_from, long_form};
ghost use Rattle.ng_mtrace.specs.Tokens.{last_tokens};

use crate::number::{ptr, size};
use crate::plain::plain_kind;
use crate::text::is_word;
use crate::token::last_token;

/// What a line is: the mark of a section, a line of one of the forms, or none of these.
#[derive(Clone, Copy)]
pub enum Kind {
    /// `= Start`.
    Start,
    /// `= End`.
    Stop,
    /// No token.
    Blank,
    /// `-`: the end of a block.
    End { name: u64 },
    /// `<`: the block that a realloc was given.
    Old { name: u64 },
    /// `+`: the making of a block.
    Make { name: u64, size: u64 },
    /// `>`: the block that a realloc gave.
    New { name: u64, size: u64 },
    /// `!`: a realloc that failed.
    Failed,
    /// No mark, and in no form.
    Bad,
}

/// The kind of a line.
pub fn read_kind(line: &[u8]) -> Kind
    ensures { result ≡ kind_of line.now }
{
    match plain_kind(line) {
        Some(kind) => kind,
        None => any_kind(line),
    }
}

/// The kind of a line, by its last tokens.
fn any_kind(line: &[u8]) -> Kind
    ensures { result ≡ kind_of line.now }
{
    let Some((before_last, last)) = last_token(line) else {
        return Kind::Blank;
    };
    let Some((before_second, second)) = last_token(before_last) else {
        return Kind::Bad;
    };
    kind_behind(before_second, second, last)
}

/// The kind of a line that ends with these two tokens. What stands before them is looked at only
/// where they don't decide.
fn kind_behind(before: &[u8], second: &[u8], last: &[u8]) -> Kind
    ensures { result ≡ kind_from (last.now ∷ second.now ∷ last_tokens before.now) }
{
    if is_word(second, b"-") {
        return ended(last);
    }
    if is_word(second, b"<") {
        return old(last);
    }
    if is_word(second, b"=") {
        return mark(before, last);
    }
    let Some((_, third)) = last_token(before) else {
        return Kind::Bad;
    };
    match read_long(third, second, last) {
        Some(kind) => kind,
        None => Kind::Bad,
    }
}

/// The kind of a line that ends with `-` and this token.
fn ended(last: &[u8]) -> Kind
    ensures { (before : List (List ℕ)) → result ≡ kind_from (last.now ∷ codes "-" ∷ before) }
{
    match ptr(last) {
        Some(name) => Kind::End { name },
        None => Kind::Bad,
    }
}

/// The kind of a line that ends with `<` and this token.
fn old(last: &[u8]) -> Kind
    ensures { (before : List (List ℕ)) → result ≡ kind_from (last.now ∷ codes "<" ∷ before) }
{
    match ptr(last) {
        Some(name) => Kind::Old { name },
        None => Kind::Bad,
    }
}

/// The kind of a line that ends with `=` and this token.
fn mark(before: &[u8], last: &[u8]) -> Kind
    ensures { result ≡ kind_from (last.now ∷ codes "=" ∷ last_tokens before.now) }
{
    if last_token(before).is_some() {
        return Kind::Bad;
    }
    if is_word(last, b"Start") {
        return Kind::Start;
    }
    if is_word(last, b"End") {
        return Kind::Stop;
    }
    Kind::Bad
}

/// A sign, a pointer and a size.
fn read_long(sign: &[u8], second: &[u8], last: &[u8]) -> Option<Kind>
    ensures { result ≡ long_form sign.now second.now last.now }
{
    if is_word(sign, b"+") {
        let name = ptr(second)?;
        let size = size(last)?;
        return Some(Kind::Make { name, size });
    }
    if is_word(sign, b">") {
        let name = ptr(second)?;
        let size = size(last)?;
        return Some(Kind::New { name, size });
    }
    if is_word(sign, b"!") {
        let _name = ptr(second)?;
        let _size = size(last)?;
        return Some(Kind::Failed);
    }
    None
}
