//! Hexadecimal digits.
ghost use Rattle.std.specs.Prelude.{◌≡◌, ◌<◌, ◌≤◌, drop, false};
ghost use Rattle.std.specs.Fmt.{digits, digit_glyph};

fn glyph(digit: u8) -> u8
    requires { digit < 16 }
    ensures { result ≡ digit_glyph false digit }
{
    if digit < 10 {
        b'0' + digit
    } else {
        b'a' + (digit - 10)
    }
}

/// The digits of a number, in lower case and without leading zeros, at the end of a buffer. The answer is where they
/// begin.
pub fn hex_digits(buffer: &mut [u8; 16], n: u64) -> usize
    ensures digits { drop result buffer.new ≡ digits 16 false n }
    ensures within { result ≤ 15 }
{
    let mut rest = n;
    for step in 0..16usize {
        let at = 15 - step;
        buffer[at] = glyph((rest % 16) as u8);
        rest /= 16;
        if rest == 0 {
            return at;
        }
    }
    unreachable!()
}
