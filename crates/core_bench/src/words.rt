/// What is done.
#[derive(Clone, Copy, Debug, PartialEq, Eq)]
pub enum Pattern {
    /// Nothing between the opening and the end.
    Nothing,
    /// Word 0 is loaded.
    Loads,
    /// An own cell of a slot is written.
    Stores,
    /// An exchange on a mask that finds another word than it names.
    Exchanges,
    /// A slot comes and goes back, beside one that stays.
    Steady,
    /// Slots of several groups come, and then all go back.
    Churn,
}

/// What is done, and how often.
#[derive(Clone, Copy, Debug, PartialEq, Eq)]
pub struct Asked {
    pub pattern: Pattern,
    pub count: u64,
}

/// What the words ask. `None`: they aren't in the language.
pub fn asked_by(words: &[String]) -> Option<Asked> {
    match words {
        [pattern, count] => Some(Asked {
            pattern: pattern_of(pattern.as_str())?,
            count: count.as_str().parse::<u64>().ok()?,
        }),
        _ => None,
    }
}

fn pattern_of(word: &str) -> Option<Pattern> {
    match word {
        "nothing" => Some(Pattern::Nothing),
        "loads" => Some(Pattern::Loads),
        "stores" => Some(Pattern::Stores),
        "exchanges" => Some(Pattern::Exchanges),
        "steady" => Some(Pattern::Steady),
        "churn" => Some(Pattern::Churn),
        _ => None,
    }
}
