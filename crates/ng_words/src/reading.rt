ghost use Rattle.std.specs.Prelude.{◌≡◌, ◌⊎◌, ◌≤◌, [], true, IfOk, IfErr, IfNone, IfSome};
ghost use Rattle.clap.specs.Words.{app_of, found_of, is_simple_and_free, rows_of};
ghost use Rattle.ng_words.specs.Apps.{app_for, faults_at, rows_at, AreTaken};
ghost use Rattle.ng_words.specs.Words.{texts_of, InLanguage, IsCommand, IsNamed};
ghost use Rattle.ng_words.specs.declared.asked.Command.{Command};

use crate::asked::{Command, Setup};
use crate::clap_commands::clap_command;
use crate::meaning::meaning;
use crate::status::Status;
use crate::verb::Verb;
use clap::ArgMatches;
use clap::error::ErrorKind;
use std::alloc::Global;

/// What the words of a command ask of the space. `Usage`: they are those of no command. `Host`: for want of memory.
pub fn setup(alloc: Global, words: &[String]) -> Result<Setup, Status>
    ensures asked { IfOk result (λ setup. (command : Command) × IsCommand (texts_of words.now) command
        × (setup.pages ≡ command.pages) × (setup.refuse ≡ command.refuse) × (setup.quota ≡ command.quota)) }
    ensures least { IfOk result (λ setup. 16 ≤ setup.pages) }
    ensures most { IfOk result (λ setup. setup.pages ≤ 16384) }
    ensures quota { IfOk result (λ setup. setup.quota ≤ 16384) }
    ensures usage { IfErr result (λ status. status ≡ Status.Usage → (verb : Verb) → ¬ InLanguage verb (texts_of words.now)) }
    ensures host { IfErr result (λ status. (status ≡ Status.Usage) ⊎ (status ≡ Status.Host)) }
{
    let command = match command(alloc, words) {
        Ok(command) => command,
        Err(status) => return Err(status),
    };
    let Ok(refuse) = command.refuse.into_items(alloc) else {
        return Err(Status::Host);
    };
    Ok(Setup {
        pages: command.pages,
        refuse,
        quota: command.quota,
    })
}

/// What the words of a command ask. `Usage`: they are those of no command. `Host`: for want of memory.
pub fn command(alloc: Global, words: &[String]) -> Result<Command, Status>
    ensures asked { IfOk result (IsCommand (texts_of words.now)) }
    ensures least { IfOk result (λ command. 16 ≤ command.pages) }
    ensures most { IfOk result (λ command. command.pages ≤ 16384) }
    ensures quota { IfOk result (λ command. command.quota ≤ 16384) }
    ensures usage { IfErr result (λ status. status ≡ Status.Usage → (verb : Verb) → ¬ InLanguage verb (texts_of words.now)) }
    ensures host { IfErr result (λ status. (status ≡ Status.Usage) ⊎ (status ≡ Status.Host)) }
{
    let Some(verb) = verb_of(words) else {
        return Err(Status::Usage);
    };
    let matches = match matches_of(alloc, verb, words) {
        Ok(matches) => matches,
        Err(status) => return Err(status),
    };
    let Some(command) = meaning(verb, &matches) else {
        return Err(Status::Usage);
    };
    Ok(command)
}

/// The command that the first word calls.
fn verb_of(words: &[String]) -> Option<Verb>
    ensures some { IfSome result (λ verb. IsNamed verb (texts_of words.now)) }
    ensures none { IfNone result ((verb : Verb) → ¬ IsNamed verb (texts_of words.now)) }
{
    let name = words.first()?;
    Verb::of(name.as_str())
}

/// What the words give the options and arguments of a command. The first word stands for the program's name.
fn matches_of<'a>(alloc: Global, verb: Verb, words: &'a [String]) -> Result<ArgMatches<'a>, Status>
    ensures taken { IfOk result (λ matches. AreTaken verb (texts_of words.entry.now)) }
    ensures rows { IfOk result (λ matches. rows_of (found_of matches) ≡ rows_at (app_for verb) (texts_of words.entry.now)) }
    ensures usage { IfErr result (λ status. status ≡ Status.Usage → ¬ AreTaken verb (texts_of words.entry.now)) }
    ensures host { IfErr result (λ status. (status ≡ Status.Usage) ⊎ (status ≡ Status.Host)) }
{
    let Ok(command) = clap_command(alloc, verb) else {
        return Err(Status::Host);
    };
    parsed(command, words)
}

/// What the kit's reader makes of the words of a simple command.
fn parsed<'a>(command: clap::Command<'a>, words: &'a [String]) -> Result<ArgMatches<'a>, Status>
    requires { is_simple_and_free (app_of command) ≡ true }
    ensures taken { IfOk result (λ matches. faults_at (app_of command.entry) (texts_of words.entry.now) ≡ []) }
    ensures rows { IfOk result (λ matches. rows_of (found_of matches) ≡ rows_at (app_of command.entry) (texts_of words.entry.now)) }
    ensures usage { IfErr result (λ status. status ≡ Status.Usage → ¬ (faults_at (app_of command.entry) (texts_of words.entry.now) ≡ [])) }
    ensures host { IfErr result (λ status. (status ≡ Status.Usage) ⊎ (status ≡ Status.Host)) }
{
    match command.try_get_matches_from(words) {
        Ok(matches) => Ok(matches),
        Err(error) => match error.kind() {
            ErrorKind::OutOfMemory => Err(Status::Host),
            _ => Err(Status::Usage),
        },
    }
}
