ghost use Rattle.std.specs.Prelude.{◌≡◌, ◌<◌, ◌∷◌, [], ◌++◌, length, IfSome, IfNone, ◌==◌, ◌↔◌, position, IsTrue};
ghost use Rattle.std.specs.Str.{bytes_eq};
ghost use Rattle.ng_mtrace.specs.Text.{parts_at, IsWithout};

use memchr::memchr;

/// What stands before the first byte of this value, and what stands behind it.
pub fn cut_at(text: &[u8], cut: u8) -> Option<(&[u8], &[u8])>
    ensures none { IfNone result (parts_at cut text.now ≡ text.now ∷ []) }
    ensures some { IfSome result (λ (before, behind).
        parts_at cut text.now ≡ before.now ∷ parts_at cut behind.now) }
    ensures shorter { IfSome result (λ (before, behind). length behind.now < length text.now) }

    ensures absent { IfNone result (IsWithout cut text.now) }
    ensures first { IfSome result (λ (before, behind). IsWithout cut before.now) }
    ensures whole { IfSome result (λ (before, behind).
        text.now ≡ before.now ++ cut ∷ behind.now) }
{
    let Some(at) = place_of(text, cut) else {
        return None;
    };
    Some((&text[..at], &text[at + 1..]))
}

/// The place of the first byte of this value.
fn place_of(text: &[u8], wanted: u8) -> Option<usize>
    ensures { result ≡ position (λ byte. byte == wanted) text.now }
{
    memchr(wanted, text)
}

/// Is a text this word?
pub fn is_word(text: &[u8], word: &[u8]) -> bool
    ensures value { result ≡ bytes_eq text.now word.now }
    ensures equal { IsTrue result ↔ (text.now ≡ word.now) }
{
    text == word
}

/// What stands before this word at the end of a text.
pub fn before_word<'a>(text: &'a [u8], word: &[u8]) -> Option<&'a [u8]>
    ensures { IfSome result (λ before. text.now ≡ before.now ++ word.now) }
{
    text.strip_suffix(word)
}
