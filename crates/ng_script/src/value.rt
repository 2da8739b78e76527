ghost use Rattle.std.specs.Prelude.{◌≡◌, ◌≤◌};
ghost use Rattle.ng_script.specs.Numbers.{value_of, number_of};

/// The number that a text writes: `0x` and hexadecimal digits of either case, or decimal digits.
/// It is below 2^64.
pub fn number(text: &[u8]) -> Option<u64>
    ensures { result ≡ number_of text.now }
{
    match text.strip_prefix(b"0x") {
        Some(digits) => value(digits, 16),
        None => value(text, 10),
    }
}

/// The number that digits of this base write.
fn value(digits: &[u8], base: u32) -> Option<u64>
    requires least { 2 ≤ base }
    requires most { base ≤ 36 }
    ensures { result ≡ value_of base digits.now }
{
    if digits.is_empty() {
        return None;
    }
    let mut value: u64 = 0;
    for byte in digits {
        let Some(digit) = char::from(*byte).to_digit(base) else {
            return None;
        };
        let Some(tenfold) = value.checked_mul(u64::from(base)) else {
            return None;
        };
        let Some(sum) = tenfold.checked_add(u64::from(digit)) else {
            return None;
        };
        value = sum;
    }
    Some(value)
}
