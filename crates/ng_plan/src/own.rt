ghost use Rattle.std.specs.Prelude.{◌≡◌, ◌≤◌, ◌++◌, ◌∷◌, [], List, length, IfOk, All};
ghost use Rattle.ng_mtrace.specs.declared.log.Line.{Line};
ghost use Rattle.ng_plan.specs.Mentions.{own};
ghost use Rattle.ng_plan.specs.Steps.{owns_of};
ghost use Rattle.ng_plan.specs.Tables.{AreEnded, AreMakers, IsKnown, Rises};

use crate::mentions::{ended, made};
use crate::names::Names;
use ng_mtrace::Line;
use std::alloc::{AllocError, Global};

/// Of each line the log's own op that it takes.
pub fn owns(alloc: Global, names: &Names, lines: &[Line]) -> Result<Vec<Option<u32>>, AllocError>
    requires rising { Rises names.now }
    requires known { All (IsKnown names.now) lines.now }
    requires few { length lines.now ≤ 1000000 }
    ensures { IfOk result (λ owns. owns.items ≡ owns_of lines.now) }
{
    let mut makers: Vec<Option<u32>> = vec![in alloc; None; names.len()]?;
    let mut owns = Vec::with_capacity(alloc, lines.len())?;
    for (number, line) in lines.iter().enumerate() {
        let own = take_end(names, makers.as_mut_slice(), line);
        take_make(names, makers.as_mut_slice(), number as u32, line);
        owns.push(own)?;
    }
    Ok(owns)
}

/// Takes the end that the line mentions: its own op.
fn take_end(names: &Names, makers: &mut [Option<u32>], line: &Line) -> Option<u32>
    requires rising { Rises names.now }
    requires known { IsKnown names.now line.now }
    requires same { length makers.old ≡ length names.now }
    ensures own { (before : List Line) → AreMakers names.now makers.old before
        → result ≡ own before line.now }
    ensures same { length makers.new ≡ length names.now }
    ensures makers { (before : List Line) → AreMakers names.now makers.old before
        → AreEnded names.now makers.new before line.now }
{
    let name = ended(line)?;
    let at = names.number(name);
    let own = makers[at];
    makers[at] = None;
    own
}

/// Takes the name that the line makes.
#[tactic(auto, using(crate::proofs::TableLemmas::maker_push))]
fn take_make(names: &Names, makers: &mut [Option<u32>], number: u32, line: &Line)
    requires rising { Rises names.now }
    requires known { IsKnown names.now line.now }
    requires same { length makers.old ≡ length names.now }
    ensures same { length makers.new ≡ length names.now }
    ensures makers { (before : List Line) → length before ≡ number
        → AreEnded names.now makers.old before line.now
        → AreMakers names.now makers.new (before ++ line.now ∷ []) }
{
    if let Some(name) = made(line) {
        let at = names.number(name);
        makers[at] = Some(number);
    }
}
