ghost use Rattle.std.specs.Prelude.{◌≡◌, ◌⊎◌, IsTrue, IfOk, IfErr};
ghost use Rattle.ng_words.specs.Words.{texts_of, InLanguage, IsCommand};
ghost use Rattle.ng_tool.specs.Causes.{serves};

use crate::call::Call;
use ng_words::{Command, Status, Verb, command};
use std::alloc::Global;

/// What the words ask of a top call. `Usage`: they aren't those of a command that it does.
pub fn asked(alloc: Global, words: &[String], call: Call) -> Result<Command, Status>
    ensures words { IfOk result (IsCommand (texts_of words.now)) }
    ensures served { IfOk result (λ command. IsTrue (serves call command.verb)) }
    ensures usage { IfErr result (λ status. status ≡ Status.Usage
        → (verb : Verb) → IsTrue (serves call verb) → ¬ InLanguage verb (texts_of words.now)) }
    ensures host { IfErr result (λ status. (status ≡ Status.Usage) ⊎ (status ≡ Status.Host)) }
{
    let command = match command(alloc, words) {
        Ok(command) => command,
        Err(status) => return Err(status),
    };
    if call.serves(command.verb) {
        Ok(command)
    } else {
        Err(Status::Usage)
    }
}
