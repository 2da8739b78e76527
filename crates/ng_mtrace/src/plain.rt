ghost use Rattle.std.specs.Prelude.{◌≡◌, IfSome};
ghost use Rattle.ng_mtrace.specs.Kinds.{kind_of};

use crate::kind::Kind;
use crate::number::last_number;
use crate::text::before_word;

/// The kind of a line that ends as most do: a sign, a pointer and perhaps a size, each a number
/// behind one space. It is read once, from its end.
pub fn plain_kind(line: &[u8]) -> Option<Kind>
    ensures { IfSome result (λ kind. kind ≡ kind_of line.now) }
{
    let (before, last) = last_number(line)?;
    if let Some(_) = before_word(before, b" - ") {
        return Some(Kind::End { name: last });
    }
    if let Some(_) = before_word(before, b" < ") {
        return Some(Kind::Old { name: last });
    }
    let (before, name) = last_number(before_word(before, b" ")?)?;
    if let Some(_) = before_word(before, b" + ") {
        return Some(Kind::Make { name, size: last });
    }
    if let Some(_) = before_word(before, b" > ") {
        return Some(Kind::New { name, size: last });
    }
    None
}
