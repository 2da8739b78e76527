ghost use Rattle.std.specs.Prelude.{◌≡◌, ◌∷◌, [], IfSome, IfNone};
ghost use Rattle.ng_mtrace.specs.Tokens.{is_blank, last_tokens};

/// Is it a space or a tab?
fn is_blank(byte: u8) -> bool
    ensures { result ≡ is_blank byte }
{
    byte == b' ' || byte == b'\t'
}

/// What stands before the last token of a line, and that token.
pub fn last_token(line: &[u8]) -> Option<(&[u8], &[u8])>
    ensures none { IfNone result (last_tokens line.now ≡ []) }
    ensures some { IfSome result (λ (before, token).
        last_tokens line.now ≡ token.now ∷ last_tokens before.now) }
{
    let mut end = line.len();
    while end > 0 && is_blank(line[end - 1]) {
        end -= 1;
    }
    if end == 0 {
        return None;
    }
    let mut start = end - 1;
    while start > 0 && !is_blank(line[start - 1]) {
        start -= 1;
    }
    Some((&line[..start], &line[start..end]))
}
