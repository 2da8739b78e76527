// What the texts of options and arguments mean.
ghost use Rattle.std.specs.Prelude.{◌≡◌, ◌↔◌, ◌≤◌, ◌-◌, ◌+◌, ◌^◌, ℕ, IfNone, IfSome, IsTrue, List, [], Some, codes};
ghost use Rattle.clap.specs.Words.{first_value, found_of};
ghost use Rattle.ng_terms.specs.declared.reply.Mode.{Mode};
ghost use Rattle.ng_words.specs.Texts.{IsBetween, IsList};
ghost use Rattle.ng_words.specs.Words.{MeansBy, MeansMode, MeansOption};
ghost use Rattle.ng_words.specs.declared.asked.Command.{Command};

use crate::asked::Command;
use crate::numbers::Numbers;
use crate::texts::{list, number_between};
use crate::verb::Verb;
use clap::ArgMatches;
use ng_script::number;
use ng_terms::Mode;

/// The pages of a space where the words don't tell.
const PAGES: u64 = 4096;

/// What the matches of a command ask. `None`: a value isn't in its range, or blocks are to be both aligned and cleared.
pub fn meaning(verb: Verb, matches: &ArgMatches) -> Option<Command>
    ensures some { IfSome result (MeansBy (first_value (found_of matches.now))) }
    ensures verb { IfSome result (λ command. command.verb ≡ verb) }
    ensures none { IfNone result ((command : Command) → ¬ MeansBy (first_value (found_of matches.now)) command) }
{
    let pages = number_or(matches, "pages", 16, 16384, PAGES)?;
    let quota = number_or(matches, "quota", 0, 16384, pages)?;
    let refuse = numbers_or_none(matches, "refuse")?;
    let mode = mode(matches)?;
    let seed = number_or(matches, "number", 0, u64::MAX, 0)?;
    Some(Command {
        verb,
        pages: pages as u32,
        quota,
        refuse,
        calls_shown: is_set(matches, "calls"),
        mode,
        seed,
    })
}

/// How blocks are made. `None`: the alignment is no number, or they are to be both aligned and cleared.
fn mode(matches: &ArgMatches) -> Option<Mode>
    ensures some { IfSome result (MeansMode (first_value (found_of matches.now))) }
    ensures none { IfNone result ((mode : Mode) → ¬ MeansMode (first_value (found_of matches.now)) mode) }
{
    let zero = is_set(matches, "zero");
    match matches.get_str("align") {
        None => Some(Mode { align: None, zero }),
        Some(_) if zero => None,
        Some(text) => {
            let align = number(text.as_bytes())?;
            Some(Mode {
                align: Some(align),
                zero,
            })
        }
    }
}

/// The number of an option between two bounds, or the common one where it isn't given.
fn number_or(matches: &ArgMatches, name: &str, least: u64, most: u64, common: u64) -> Option<u64>
    ensures some { IfSome result (MeansOption (IsBetween least most) common (first_value (found_of matches.now) name.now)) }
    ensures none { IfNone result ((other n : ℕ) → ¬ MeansOption (IsBetween least most) other (first_value (found_of matches.now) name.now) n) }
{
    match matches.get_str(name) {
        Some(text) => number_between(text, least, most),
        None => Some(common),
    }
}

/// The numbers of an option's list, or none where it isn't given.
fn numbers_or_none(matches: &ArgMatches, name: &str) -> Option<Numbers>
    ensures some { IfSome result (MeansOption IsList [] (first_value (found_of matches.now) name.now)) }
    ensures none { IfNone result ((numbers : List ℕ) → ¬ MeansOption IsList [] (first_value (found_of matches.now) name.now) numbers) }
{
    match matches.get_str(name) {
        Some(text) => list(text),
        None => Some(Numbers::new()),
    }
}

/// Whether a flag is set.
fn is_set(matches: &ArgMatches, name: &str) -> bool
    ensures { IsTrue result ↔ (first_value (found_of matches.now) name.now ≡ Some (codes "true")) }
{
    match matches.get_str(name) {
        Some(text) => text == "true",
        None => false,
    }
}
