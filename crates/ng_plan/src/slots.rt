ghost use Rattle.std.specs.Prelude.{◌≡◌, ◌<◌, length, slice_index, IfSome};

use std::alloc::{AllocError, Global};

/// Guesses at the places of values in a list, by the hashes of the values. A guess is looked up in
/// the list before it is told, so one that is old or missing costs time and no more.
#[derive(Drop)]
pub struct Slots {
    places: Vec<usize>,
}

/// How many slots in a row may hold the place of a value.
const PROBES: usize = 4;

/// No place of a list.
const EMPTY: usize = usize::MAX;

/// The golden ratio's fraction, in 64 bits, made odd.
const MIX: u64 = 0x9E37_79B9_7F4A_7C15;

impl Slots {
    /// This many slots without a guess.
    pub fn new(alloc: Global, count: usize) -> Result<Slots, AllocError> {
        Ok(Slots {
            places: vec![in alloc; EMPTY; count]?,
        })
    }

    /// A place of the value in the list, if one of its slots tells it.
    pub fn place(&self, list: &[u64], value: u64) -> Option<usize>
        ensures within { IfSome result (λ at. at < length list.now) }
        ensures value { IfSome result (λ at. slice_index list.now at ≡ value) }
    {
        let first = self.first(value);
        for step in 0..PROBES {
            if let Some(at) = self.guess(first.wrapping_add(step), list, value) {
                return Some(at);
            }
        }
        None
    }

    /// A place of the value in the list, if its first slot tells it.
    pub fn latest(&self, list: &[u64], value: u64) -> Option<usize>
        ensures within { IfSome result (λ at. at < length list.now) }
        ensures value { IfSome result (λ at. slice_index list.now at ≡ value) }
    {
        self.guess(self.first(value), list, value)
    }

    /// Notes the place of a value in the first of its slots that is empty, if one is.
    pub fn note(&mut self, value: u64, place: usize) {
        let first = self.first(value);
        for step in 0..PROBES {
            if self.fill(first.wrapping_add(step), place) {
                return;
            }
        }
    }

    /// Notes the place of a value in its first slot.
    pub fn replace(&mut self, value: u64, place: usize) {
        let first = self.first(value);
        if first < self.places.len() {
            self.places[first] = place;
        }
    }

    /// The first slot of a value.
    fn first(&self, value: u64) -> usize {
        let high = value.wrapping_mul(MIX) >> 32;
        (high.wrapping_mul(self.places.len() as u64) >> 32) as usize
    }

    /// The place that a slot holds, if the value is there.
    fn guess(&self, slot: usize, list: &[u64], value: u64) -> Option<usize>
        ensures within { IfSome result (λ at. at < length list.now) }
        ensures value { IfSome result (λ at. slice_index list.now at ≡ value) }
    {
        let at = *self.places.get(slot)?;
        if at < list.len() && list[at] == value {
            Some(at)
        } else {
            None
        }
    }

    /// Writes the place into a slot, unless one stands there.
    fn fill(&mut self, slot: usize, place: usize) -> bool {
        if slot < self.places.len() && self.places[slot] == EMPTY {
            self.places[slot] = place;
            true
        } else {
            false
        }
    }
}
