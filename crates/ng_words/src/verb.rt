ghost use Rattle.std.specs.Prelude.{◌≡◌, IfNone, IfSome};
ghost use Rattle.ng_words.specs.Verbs.{name_of};

/// A command of the program.
#[derive(Clone, Copy, Debug, PartialEq, Eq)]
pub enum Verb {
    /// Does the ops of logs one after the other, in the order of their plan.
    Serial,
    /// Does the ops of each log beside those of the others.
    Replay,
    /// Counts what logs hold, without a heap.
    Check,
    /// Does the commands of a script.
    Drill,
    /// Replays logs that are made of a number.
    Make,
}

impl Verb {
    /// The word that it is called by.
    pub fn name(self) -> &'static str
        ensures { result.now ≡ name_of self }
    {
        match self {
            Verb::Serial => "serial",
            Verb::Replay => "replay",
            Verb::Check => "check",
            Verb::Drill => "drill",
            Verb::Make => "make",
        }
    }

    /// The command that a word calls.
    pub fn of(word: &str) -> Option<Verb>
        ensures some { IfSome result (λ verb. word.now ≡ name_of verb) }
        ensures none { IfNone result ((verb : Verb) → ¬ (word.now ≡ name_of verb)) }
    {
        match word {
            "serial" => Some(Verb::Serial),
            "replay" => Some(Verb::Replay),
            "check" => Some(Verb::Check),
            "drill" => Some(Verb::Drill),
            "make" => Some(Verb::Make),
            _ => None,
        }
    }
}
