//! The size classes of the heap, where the slots of a group stand, and masks with one bit a slot.
#![tactic(auto)]

mod class;
mod laws;
mod mask;
mod slot;

pub use class::{IB, LONE, THRESHOLD, UNIT, class_of, units};
pub use laws::{slots_are_apart, units_rise};
pub use mask::{all_bits, lowest_bit};
pub use slot::{room, slot_end, slot_start, stride};

#[cfg(test)]
mod tests;
