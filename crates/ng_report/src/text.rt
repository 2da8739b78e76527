//! Text in memory that was reserved before.
ghost use Rattle.std.specs.Prelude.{◌≡◌, ◌≤◌, ◌+◌, ◌++◌, length, vec_len, vec_capacity};
ghost use Rattle.std.specs.Fmt.{decimal};
ghost use Rattle.ng_terms.specs.Reports.{hex};

use crate::hex::hex_digits;
use itoa::Buffer;

/// Appends bytes for which there is room.
pub fn put(text: &mut Vec<u8>, bytes: &[u8])
    requires { vec_len text.old + length bytes.now ≤ vec_capacity text.old }
    ensures items { text.new.items ≡ text.old.items ++ bytes.now }
    ensures short { vec_len text.new ≡ vec_len text.old + length bytes.now }
    ensures room { vec_capacity text.old ≤ vec_capacity text.new }
{
    text.extend_from_slice(bytes).unwrap();
}

/// Appends a number in decimal, of at most 20 digits.
pub fn put_decimal(text: &mut Vec<u8>, n: u64)
    requires { vec_len text.old + 20 ≤ vec_capacity text.old }
    ensures items { text.new.items ≡ text.old.items ++ decimal n }
    ensures short { vec_len text.new ≤ vec_len text.old + 20 }
    ensures room { vec_capacity text.old ≤ vec_capacity text.new }
{
    let mut buffer = Buffer::new();
    put(text, buffer.format(n).as_bytes());
}

/// Appends a number in hexadecimal, of at most 18 bytes.
pub fn put_hex(text: &mut Vec<u8>, n: u64)
    requires { vec_len text.old + 18 ≤ vec_capacity text.old }
    ensures items { text.new.items ≡ text.old.items ++ hex n }
    ensures short { vec_len text.new ≤ vec_len text.old + 18 }
    ensures room { vec_capacity text.old ≤ vec_capacity text.new }
{
    let mut buffer = [0u8; 16];
    let start = hex_digits(&mut buffer, n);
    put(text, b"0x");
    put(text, &buffer[start..]);
}
