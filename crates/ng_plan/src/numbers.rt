ghost use Rattle.std.specs.Prelude.{◌≡◌, ◌+◌, ◌∷◌, ℕ, List, length, slice_index_or, None, IfOk};
ghost use Rattle.ng_plan.specs.Numbers.{AreNumbers};
ghost use Rattle.ng_plan.specs.declared.step.Place.{Place};

use crate::step::Place;
use std::alloc::{AllocError, Global};

/// Of each op of a log the number of its place among these, from 1.
pub fn numbers(
    alloc: Global,
    places: &[Place],
    log: u32,
    ops: usize,
) -> Result<Vec<Option<u64>>, AllocError>
    ensures len { IfOk result (λ numbers. length numbers.items ≡ ops) }
    ensures numbers { IfOk result (λ numbers. AreNumbers places.now 1 log numbers.items) }
{
    let mut numbers: Vec<Option<u64>> = vec![in alloc; None; ops]?;
    fill(places, log, numbers.as_mut_slice());
    Ok(numbers)
}

/// Writes the numbers from the last to the first.
fn fill(places: &[Place], log: u32, numbers: &mut [Option<u64>])
    requires { (op : ℕ) → slice_index_or numbers.old op None ≡ None }
    ensures { AreNumbers places.now 1 log numbers.new }
{
    let mut rest = places.len();
    while rest > 0 {
        rest -= 1;
        write(numbers, log, &places[rest], rest as u64 + 1);
    }
}

/// Writes the number of a place, if its op is of the log.
fn write(numbers: &mut [Option<u64>], log: u32, place: &Place, number: u64)
    ensures { (places : List Place) → AreNumbers places (number + 1) log numbers.old
        → AreNumbers (place.now ∷ places) number log numbers.new }
{
    let op = place.op as usize;
    if place.log == log && op < numbers.len() {
        numbers[op] = Some(number);
    }
}
