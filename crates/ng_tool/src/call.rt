ghost use Rattle.std.specs.Prelude.{◌≡◌};
ghost use Rattle.ng_tool.specs.Causes.{serves};

use ng_words::Verb;

/// A top call.
#[derive(Clone, Copy, Debug, PartialEq, Eq)]
pub enum Call {
    /// `tool`, which has one thread.
    Tool,
    /// `replay`, which has one for each log.
    Beside,
}

impl Call {
    /// Whether the call does this command.
    pub fn serves(self, verb: Verb) -> bool
        ensures { result ≡ serves self verb }
    {
        match (self, verb) {
            (Call::Tool, Verb::Serial | Verb::Check | Verb::Drill | Verb::Make) => true,
            (Call::Beside, Verb::Replay) => true,
            _ => false,
        }
    }
}
