ghost use Rattle.std.specs.Prelude.{◌≡◌, ◌≢◌, ◌<◌, ◌≤◌, length, true, Some, IfOk, IfErr, option_and_then};
ghost use Rattle.ng_script.specs.Faults.{is_bad};
ghost use Rattle.ng_script.specs.Forms.{byte_of, form_of, place_of, malloc_form, free_form, write_form, usable_form, short_form, long_form};
ghost use Rattle.ng_script.specs.Lines.{IsTaken};
ghost use Rattle.ng_script.specs.Scripts.{place_in, command_in};

use crate::command::{Command, Place, Shift};
use crate::names::Names;
use crate::place::{is_name, named};
use crate::value::number;
use ng_mtrace::{is_word, last_token};

/// Why a line isn't taken.
#[derive(Clone, Copy)]
pub enum LineFault {
    /// It is in none of the forms, or uses a name that isn't known.
    Bad,
    /// The host has no memory left.
    Host,
}

/// The command of a line behind which these names are known, if it has a token. The name of an `m`
/// line is known from then on.
pub fn read_line(names: &mut Names, line: &[u8]) -> Result<Option<Command>, LineFault>
    requires { length names.old < 1000000 }
    ensures ok { IfOk result (λ command.
        IsTaken names.old (form_of line.now) names.new command) }
    ensures err { IfErr result (λ fault. fault ≢ LineFault.Host
        → is_bad names.old (form_of line.now) ≡ true) }
{
    let Some((before, last)) = last_token(line) else {
        return Ok(None);
    };
    let Some((before, second)) = last_token(before) else {
        return Err(LineFault::Bad);
    };
    let Some((before, first)) = last_token(before) else {
        let Some(command) = short_command(names, second, last) else {
            return Err(LineFault::Bad);
        };
        return Ok(Some(command));
    };
    if let Some(_) = last_token(before) {
        return Err(LineFault::Bad);
    }
    long_command(names, first, second, last)
}

/// The command of three tokens.
fn long_command(
    names: &mut Names,
    word: &[u8],
    place: &[u8],
    number: &[u8],
) -> Result<Option<Command>, LineFault>
    requires { length names.old < 1000000 }
    ensures ok { IfOk result (λ command.
        IsTaken names.old (long_form word.now place.now number.now) names.new command) }
    ensures err { IfErr result (λ fault. fault ≢ LineFault.Host
        → is_bad names.old (long_form word.now place.now number.now) ≡ true) }
{
    if is_word(word, b"m") {
        return malloc_command(names, place, number);
    }
    if is_word(word, b"w") {
        let Some(command) = write_command(names, place, number) else {
            return Err(LineFault::Bad);
        };
        return Ok(Some(command));
    }
    Err(LineFault::Bad)
}

/// The command of two tokens.
fn short_command(names: &Names, word: &[u8], place: &[u8]) -> Option<Command>
    requires { length names.now ≤ 1000000 }
    ensures { result ≡ command_in names.now (short_form word.now place.now) }
{
    if is_word(word, b"f") {
        return free_command(names, place);
    }
    if is_word(word, b"u") {
        return usable_command(names, place);
    }
    None
}

/// The command of a line `m`, whose name is known from then on.
fn malloc_command(names: &mut Names, name: &[u8], size: &[u8]) -> Result<Option<Command>, LineFault>
    requires { length names.old < 1000000 }
    ensures ok { IfOk result (λ command.
        IsTaken names.old (malloc_form name.now size.now) names.new command) }
    ensures err { IfErr result (λ fault. fault ≢ LineFault.Host
        → is_bad names.old (malloc_form name.now size.now) ≡ true) }
{
    if !is_name(name) {
        return Err(LineFault::Bad);
    }
    let Some(size) = number(size) else {
        return Err(LineFault::Bad);
    };
    match names.enter(name) {
        Ok(name) => Ok(Some(Command::Malloc { name, size })),
        Err(_) => Err(LineFault::Host),
    }
}

/// The command of a line `f`.
fn free_command(names: &Names, token: &[u8]) -> Option<Command>
    requires { length names.now ≤ 1000000 }
    ensures { result ≡ command_in names.now (free_form token.now) }
{
    let place = known_place(names, token)?;
    Some(Command::Free { place })
}

/// The place that a token writes, where its name is known.
fn known_place(names: &Names, token: &[u8]) -> Option<Place>
    requires { length names.now ≤ 1000000 }
    ensures { result ≡ option_and_then (place_in names.now) (place_of token.now) }
{
    let Some((name, shift)) = named(token) else {
        let address = number(token)?;
        return Some(Place::At(address));
    };
    let name = names.number(name)?;
    Some(Place::Named { name, shift })
}

/// The command of a line `w`.
fn write_command(names: &Names, token: &[u8], byte: &[u8]) -> Option<Command>
    requires { length names.now ≤ 1000000 }
    ensures { result ≡ command_in names.now (write_form token.now byte.now) }
{
    let (name, shift) = named(token)?;
    let Shift::Up(offset) = shift else {
        return None;
    };
    let byte = byte_number(byte)?;
    let name = names.number(name)?;
    Some(Command::Write { name, offset, byte })
}

/// The number that a text writes, where it is below 256.
fn byte_number(text: &[u8]) -> Option<u8>
    ensures { result ≡ byte_of text.now }
{
    let number = number(text)?;
    if number < 256 {
        Some(number as u8)
    } else {
        None
    }
}

/// The command of a line `u`.
fn usable_command(names: &Names, name: &[u8]) -> Option<Command>
    requires { length names.now ≤ 1000000 }
    ensures { result ≡ command_in names.now (usable_form name.now) }
{
    if !is_name(name) {
        return None;
    }
    let name = names.number(name)?;
    Some(Command::Usable { name })
}
