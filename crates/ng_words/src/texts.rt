// The numbers that texts write.
ghost use Rattle.std.specs.Prelude.{◌≡◌, IfNone, IfSome, ℕ, List};
ghost use Rattle.ng_words.specs.Lists.{list_of, number_added};
ghost use Rattle.ng_words.specs.Texts.{IsBetween, IsList};

use crate::numbers::Numbers;
use ng_script::number;

/// The number that a text writes, where it lies between two bounds.
pub fn number_between(text: &str, least: u64, most: u64) -> Option<u64>
    ensures some { IfSome result (IsBetween least most text.now) }
    ensures none { IfNone result ((n : ℕ) → ¬ IsBetween least most text.now n) }
{
    let number = number(text.as_bytes())?;
    if least <= number && number <= most {
        Some(number)
    } else {
        None
    }
}

/// The numbers that a text lists.
pub fn list(text: &str) -> Option<Numbers>
    ensures some { IfSome result (IsList text.now) }
    ensures none { IfNone result ((numbers : List ℕ) → ¬ IsList text.now numbers) }
{
    listed(text)
}

/// The numbers that a text lists.
fn listed(text: &str) -> Option<Numbers>
    ensures { result ≡ list_of text.now }
{
    let mut numbers = Numbers::new();
    for part in text.split(',') {
        numbers = with_number(numbers, part)?;
    }
    Some(numbers)
}

/// The numbers so far, and the one that a text writes.
#[tactic(auto, unfolding(crate::specs::Lists::number_added))]
fn with_number(mut numbers: Numbers, text: &str) -> Option<Numbers>
    ensures { result ≡ number_added numbers text.now }
{
    let number = number(text.as_bytes())?;
    if 1 <= number && number <= 1_000_000 && numbers.push(number) {
        Some(numbers)
    } else {
        None
    }
}
