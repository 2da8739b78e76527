// What the kit's reader of command lines is told of each command.
ghost use Rattle.std.specs.Prelude.{◌≡◌, IfOk};
ghost use Rattle.clap.specs.Words.{app_of, with_rule};
ghost use Rattle.ng_words.specs.Apps.{app_for, flag_rule, option_rule, positional_rule, replay_app, space_app};

use crate::verb::Verb;
use clap::{Arg, ArgAction, Command};
use std::alloc::{AllocError, Global};

/// The options and arguments of a command.
pub fn clap_command<'a>(alloc: Global, verb: Verb) -> Result<Command<'a>, AllocError>
    ensures { IfOk result (λ c. app_of c ≡ app_for verb) }
{
    match verb {
        Verb::Serial => with_replay_options(alloc, Command::new(alloc, "serial")),
        Verb::Replay => with_replay_options(alloc, Command::new(alloc, "replay")),
        Verb::Check => Ok(Command::new(alloc, "check")),
        Verb::Drill => with_space_options(alloc, Command::new(alloc, "drill")),
        Verb::Make => {
            let pages = with_option(alloc, Command::new(alloc, "make"), "pages")?;
            with_positional(alloc, pages, "number")
        }
    }
}

/// The options of a space.
fn with_space_options<'a>(alloc: Global, command: Command<'a>) -> Result<Command<'a>, AllocError>
    ensures { IfOk result (λ c. app_of c ≡ space_app (app_of command.entry)) }
{
    let pages = with_option(alloc, command, "pages")?;
    with_option(alloc, pages, "refuse")
}

/// The options of a replay.
fn with_replay_options<'a>(alloc: Global, command: Command<'a>) -> Result<Command<'a>, AllocError>
    ensures { IfOk result (λ c. app_of c ≡ replay_app (app_of command.entry)) }
{
    let space = with_space_options(alloc, command)?;
    let quota = with_option(alloc, space, "quota")?;
    let calls = with_flag(alloc, quota, "calls")?;
    let align = with_option(alloc, calls, "align")?;
    with_flag(alloc, align, "zero")
}

/// Adds a long option with one value.
fn with_option<'a>(
    alloc: Global,
    command: Command<'a>,
    name: &'a str,
) -> Result<Command<'a>, AllocError>
    ensures { IfOk result (λ c. app_of c ≡ with_rule (app_of command.entry) (option_rule name.entry.now)) }
{
    let option = Arg::new(alloc, name).long(name);
    command.arg(option)
}

/// Adds a long flag.
fn with_flag<'a>(
    alloc: Global,
    command: Command<'a>,
    name: &'a str,
) -> Result<Command<'a>, AllocError>
    ensures { IfOk result (λ c. app_of c ≡ with_rule (app_of command.entry) (flag_rule name.entry.now)) }
{
    let flag = Arg::new(alloc, name).long(name).action(ArgAction::SetTrue);
    command.arg(flag)
}

/// Adds an argument without a name that must be there.
fn with_positional<'a>(
    alloc: Global,
    command: Command<'a>,
    name: &'a str,
) -> Result<Command<'a>, AllocError>
    ensures { IfOk result (λ c. app_of c ≡ with_rule (app_of command.entry) (positional_rule name.entry.now)) }
{
    let argument = Arg::new(alloc, name).required(true);
    command.arg(argument)
}
