ghost use Rattle.std.specs.Prelude.{◌≡◌, ◌<◌, ◌≤◌, IfSome, MatchOption};
ghost use Rattle.std.specs.Char.{digit_value};
ghost use Rattle.ng_mtrace.specs.Numbers.{number_of, hex_of, ptr_of, size_of};
ghost use Rattle.ng_mtrace.specs.Plain.{AreDigitsFrom, EndsInNumber};

use crate::text::{before_word, is_word};

/// The value of each byte as a hexadecimal digit, and 16 where it is none.
const DIGITS: [u8; 256] = [
    16, 16, 16, 16, 16, 16, 16, 16, 16, 16, 16, 16, 16, 16, 16, 16, 16, 16, 16, 16, 16, 16, 16, 16,
    16, 16, 16, 16, 16, 16, 16, 16, 16, 16, 16, 16, 16, 16, 16, 16, 16, 16, 16, 16, 16, 16, 16, 16,
    0, 1, 2, 3, 4, 5, 6, 7, 8, 9, 16, 16, 16, 16, 16, 16, 16, 10, 11, 12, 13, 14, 15, 16, 16, 16,
    16, 16, 16, 16, 16, 16, 16, 16, 16, 16, 16, 16, 16, 16, 16, 16, 16, 16, 16, 16, 16, 16, 16, 10,
    11, 12, 13, 14, 15, 16, 16, 16, 16, 16, 16, 16, 16, 16, 16, 16, 16, 16, 16, 16, 16, 16, 16, 16,
    16, 16, 16, 16, 16, 16, 16, 16, 16, 16, 16, 16, 16, 16, 16, 16, 16, 16, 16, 16, 16, 16, 16, 16,
    16, 16, 16, 16, 16, 16, 16, 16, 16, 16, 16, 16, 16, 16, 16, 16, 16, 16, 16, 16, 16, 16, 16, 16,
    16, 16, 16, 16, 16, 16, 16, 16, 16, 16, 16, 16, 16, 16, 16, 16, 16, 16, 16, 16, 16, 16, 16, 16,
    16, 16, 16, 16, 16, 16, 16, 16, 16, 16, 16, 16, 16, 16, 16, 16, 16, 16, 16, 16, 16, 16, 16, 16,
    16, 16, 16, 16, 16, 16, 16, 16, 16, 16, 16, 16, 16, 16, 16, 16, 16, 16, 16, 16, 16, 16, 16, 16,
    16, 16, 16, 16, 16, 16, 16, 16, 16, 16, 16, 16, 16, 16,
];

/// The value of a hexadecimal digit of either case.
fn digit(byte: u8) -> Option<u8>
    ensures value { MatchOption result (16 ≤ digit_value byte) (λ d. d ≡ digit_value byte) }
    ensures small { IfSome result (λ d. d < 16) }
{
    let value = DIGITS[usize::from(byte)];
    if value < 16 { Some(value) } else { None }
}

/// The number that 1 to 16 hexadecimal digits write.
fn number(digits: &[u8]) -> Option<u64>
    ensures { result ≡ number_of digits.now }
{
    if digits.is_empty() || digits.len() > 16 {
        return None;
    }
    let mut value: u64 = 0;
    for byte in digits {
        let Some(d) = digit(*byte) else {
            return None;
        };
        value = value * 16 + u64::from(d);
    }
    Some(value)
}

/// The number that `0x` and 1 to 16 hexadecimal digits write.
pub fn hex(token: &[u8]) -> Option<u64>
    ensures { result ≡ hex_of token.now }
{
    match token {
        [b'0', b'x', digits @ ..] => number(digits),
        _ => None,
    }
}

/// The pointer that a token writes: `(nil)`, which is 0, or a hexadecimal number.
pub fn ptr(token: &[u8]) -> Option<u64>
    ensures { result ≡ ptr_of token.now }
{
    if is_word(token, b"(nil)") {
        return Some(0);
    }
    hex(token)
}

/// The size that a token writes: `0`, or a hexadecimal number.
pub fn size(token: &[u8]) -> Option<u64>
    ensures { result ≡ size_of token.now }
{
    if is_word(token, b"0") {
        return Some(0);
    }
    hex(token)
}

/// What stands before the `0x` of a number at the end of a text, and the number.
pub fn last_number(text: &[u8]) -> Option<(&[u8], u64)>
    ensures { IfSome result (λ (before, value). EndsInNumber text.now before.now value) }
{
    let (start, value) = last_digits(text);
    if start == text.len() {
        return None;
    }
    let before = before_word(&text[..start], b"0x")?;
    Some((before, value))
}

/// Where the hexadecimal digits at the end of a text begin, or the last 16 of them, and their
/// value.
fn last_digits(text: &[u8]) -> (usize, u64)
    ensures { AreDigitsFrom result.0 text.now result.1 }
{
    let mut start = text.len();
    let mut value: u64 = 0;
    let mut scale: u64 = 1;
    let low = start.saturating_sub(16);
    while low < start {
        let Some(d) = digit(text[start - 1]) else {
            return (start, value);
        };
        value += u64::from(d) * scale;
        scale = scale.wrapping_mul(16);
        start -= 1;
    }
    (start, value)
}
