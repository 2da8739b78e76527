//! The largest request of a script.
ghost use Rattle.std.specs.Prelude.{◌≡◌, ◌<◌, ◌≤◌, max};
ghost use Rattle.ng_drill.specs.Caps.{IsCapOf, size_of};
ghost use Rattle.ng_terms.specs.Heap.{large};

use ng_script::{Command, Script};
use ng_terms::LARGE;

/// The most bytes that a command of the script asks for, but for those that are too large; or 0.
pub fn cap_of(script: &Script) -> u64
    ensures cap { IsCapOf script.now.commands result }
    ensures small { result < large }
{
    cap_in(script.commands.as_slice())
}

// The most bytes that one of these commands asks for.
fn cap_in(commands: &[Command]) -> u64
    ensures cap { IsCapOf commands.now result }
    ensures small { result < large }
{
    let mut cap = 0;
    for command in commands {
        cap = larger(cap, asked_size(command));
    }
    cap
}

// The larger of two numbers.
fn larger(cap: u64, size: u64) -> u64
    ensures { result ≡ max cap size }
{
    cap.max(size)
}

// The bytes that a command asks for, or 0 where they are too many.
fn asked_size(command: &Command) -> u64
    ensures some { size_of command.now < large → result ≡ size_of command.now }
    ensures none { large ≤ size_of command.now → result ≡ 0 }
    ensures small { result < large }
{
    let size = match *command {
        Command::Malloc { name: _, size } => size,
        Command::Free { place: _ } => 0,
        Command::Write {
            name: _,
            offset: _,
            byte: _,
        } => 0,
        Command::Usable { name: _ } => 0,
    };
    if size < LARGE { size } else { 0 }
}
