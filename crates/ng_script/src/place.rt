ghost use Rattle.std.specs.Prelude.{◌≡◌, ◌∷◌, [], List, ℕ, Some, None, MatchOption};
ghost use Rattle.std.specs.List.{list_all};
ghost use Rattle.ng_mtrace.specs.Text.{parts_at};
ghost use Rattle.ng_script.specs.Forms.{Named, is_letter, is_name, named_of, shifted};

use crate::command::Shift;
use crate::value::number;
use ng_mtrace::cut_at;

/// Is it a name: 1 to 16 lower-case letters?
pub fn is_name(text: &[u8]) -> bool
    ensures { result ≡ is_name text.now }
{
    if text.is_empty() || text.len() > 16 {
        return false;
    }
    has_letters_only(text)
}

/// Are all its bytes lower-case letters?
fn has_letters_only(text: &[u8]) -> bool
    ensures { result ≡ list_all is_letter text.now }
{
    text.iter().all(|byte| is_letter(*byte))
}

/// Is it a lower-case letter?
fn is_letter(byte: u8) -> bool
    ensures { result ≡ is_letter byte }
{
    (b'a'..=b'z').contains(&byte)
}

/// The name that a token begins with, and how far from it: the name alone, or with `+` or `-` and
/// a number.
pub fn named(token: &[u8]) -> Option<(&[u8], Shift)>
    ensures { MatchOption result (named_of token.now ≡ None)
        (λ (name, shift). named_of token.now ≡ Some (Named name.now shift)) }
{
    if is_name(token) {
        return Some((token, Shift::Up(0)));
    }
    if let Some((name, offset)) = shifted(token, b'+') {
        return Some((name, Shift::Up(offset)));
    }
    if let Some((name, offset)) = shifted(token, b'-') {
        return Some((name, Shift::Down(offset)));
    }
    None
}

/// The name and the number round this sign.
fn shifted(token: &[u8], sign: u8) -> Option<(&[u8], u64)>
    ensures { (shift : ℕ → Shift) → MatchOption result
        (shifted shift (parts_at sign token.now) ≡ None)
        (λ (name, offset). shifted shift (parts_at sign token.now)
        ≡ Some (Named name.now (shift offset))) }
{
    let (name, digits) = cut_at(token, sign)?;
    if !is_name(name) {
        return None;
    }
    if let Some(_) = cut_at(digits, sign) {
        return None;
    }
    let offset = number(digits)?;
    Some((name, offset))
}
