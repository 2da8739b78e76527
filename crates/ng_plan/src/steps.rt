ghost use Rattle.std.specs.Prelude.{◌≡◌, ◌≤◌, ◌<◌, ◌^◌, ◌∷◌, List, ℕ, length, map, false, slice_index_or, IfOk, IfSome, All};
ghost use Rattle.ng_mtrace.specs.declared.log.Line.{Line};
ghost use Rattle.ng_plan.specs.Mentions.{ended as ended_by, handed, own as own_by};
ghost use Rattle.ng_plan.specs.Steps.{owns_of, step_of, steps_of};
ghost use Rattle.ng_plan.specs.Tables.{AreEnding, AreMade, IsKnown, IsNumbered, Rises, name_at, named};

use crate::mentions::{ended, made};
use crate::names::Names;
use crate::step::Step;
use ng_mtrace::Line;
use std::alloc::{AllocError, Global};

/// The steps of a log, from its own ops.
pub fn steps(
    alloc: Global,
    names: &Names,
    lines: &[Line],
    owns: &[Option<u32>],
) -> Result<Vec<Step>, AllocError>
    requires rising { Rises names.now }
    requires known { All (IsKnown names.now) lines.now }
    requires few { length lines.now ≤ 1000000 }
    requires names_fit { length names.now < 2 ^ 32 }
    requires owns { owns.now ≡ owns_of lines.now }
    ensures steps { IfOk result (λ steps. map (named names.now) steps.items ≡ steps_of lines.now) }
    ensures numbers { IfOk result (λ steps. All (IsNumbered (length names.now)) steps.items) }
{
    let none = Step {
        claims: None,
        posts: None,
    };
    let mut ending: Vec<bool> = vec![in alloc; false; names.len()]?;
    let mut steps: Vec<Step> = vec![in alloc; none; lines.len()]?;
    fill(
        names,
        lines,
        owns,
        ending.as_mut_slice(),
        steps.as_mut_slice(),
    );
    Ok(steps)
}

/// Goes back over the lines, and writes the step of each.
fn fill(
    names: &Names,
    lines: &[Line],
    owns: &[Option<u32>],
    ending: &mut [bool],
    steps: &mut [Step],
)
    requires rising { Rises names.now }
    requires known { All (IsKnown names.now) lines.now }
    requires names_fit { length names.now < 2 ^ 32 }
    requires owns { owns.now ≡ owns_of lines.now }
    requires same { length ending.old ≡ length names.now }
    requires none { (i : ℕ) → slice_index_or ending.old i false ≡ false }
    requires long { length steps.old ≡ length lines.now }
    requires numbers { All (IsNumbered (length names.now)) steps.old }
    ensures steps { map (named names.now) steps.new ≡ steps_of lines.now }
    ensures numbers { All (IsNumbered (length names.now)) steps.new }
{
    let mut rest = lines.len();
    while rest > 0 {
        rest -= 1;
        steps[rest] = back_step(names, ending, &lines[rest], owns[rest]);
    }
}

/// Goes back over the line: its step, from its own op.
fn back_step(names: &Names, ending: &mut [bool], line: &Line, own: Option<u32>) -> Step
    requires rising { Rises names.now }
    requires known { IsKnown names.now line.now }
    requires same { length ending.old ≡ length names.now }
    requires names_fit { length names.now < 2 ^ 32 }
    ensures step { (before after : List Line) → AreEnding names.now ending.old after
        → own ≡ own_by before line.now → named names.now result ≡ step_of before line.now after }
    ensures numbers { IsNumbered (length names.now) result }
    ensures same { length ending.new ≡ length names.now }
    ensures ending { (after : List Line) → AreEnding names.now ending.old after
        → AreEnding names.now ending.new (line.now ∷ after) }
{
    let posts = back_make(names, ending, line);
    let ends = back_end(names, ending, line);
    match own {
        Some(_) => Step {
            claims: None,
            posts,
        },
        None => Step {
            claims: ends,
            posts,
        },
    }
}

/// Goes back over what the line makes: the number of its name, if the block is handed.
fn back_make(names: &Names, ending: &mut [bool], line: &Line) -> Option<u32>
    requires rising { Rises names.now }
    requires known { IsKnown names.now line.now }
    requires same { length ending.old ≡ length names.now }
    requires names_fit { length names.now < 2 ^ 32 }
    ensures handed { (after : List Line) → AreEnding names.now ending.old after
        → name_at names.now result ≡ handed line.now after }
    ensures within { IfSome result (λ at. at < length names.now) }
    ensures same { length ending.new ≡ length names.now }
    ensures made { (after : List Line) → AreEnding names.now ending.old after
        → AreMade names.now ending.new after line.now }
{
    let name = made(line)?;
    let at = names.number(name);
    let ends = ending[at];
    ending[at] = false;
    if ends { None } else { Some(at as u32) }
}

/// Goes back over what the line ends: the number of its name.
fn back_end(names: &Names, ending: &mut [bool], line: &Line) -> Option<u32>
    requires rising { Rises names.now }
    requires known { IsKnown names.now line.now }
    requires same { length ending.old ≡ length names.now }
    requires names_fit { length names.now < 2 ^ 32 }
    ensures ends { name_at names.now result ≡ ended_by line.now }
    ensures within { IfSome result (λ at. at < length names.now) }
    ensures same { length ending.new ≡ length names.now }
    ensures ending { (after : List Line) → AreMade names.now ending.old after line.now
        → AreEnding names.now ending.new (line.now ∷ after) }
{
    let name = ended(line)?;
    let at = names.number(name);
    ending[at] = true;
    Some(at as u32)
}
