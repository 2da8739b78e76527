//! Masks of 32 slots: bit i stands for slot i.
ghost use Rattle.std.specs.Prelude.{◌≡◌, ◌<◌, ◌↔◌, IsNone, IfSome};
ghost use Rattle.ng_class.specs.Mask.{IsLowestBit, HasBitsTo, all_bits_of};

/// The lowest bit that is set.
#[tactic(auto, using(crate::proofs::Masks::lowest_trailing_zeros))]
pub fn lowest_bit(mask: u32) -> Option<u32>
    ensures none { IsNone result ↔ (mask ≡ 0) }
    ensures lowest { IfSome result (IsLowestBit mask) }
{
    if mask == 0 {
        None
    } else {
        Some(mask.trailing_zeros())
    }
}

/// The mask of the slots 0 to `last`.
#[tactic(auto, using(crate::proofs::Masks::shifted_ones, crate::proofs::Masks::has_shifted_ones))]
pub fn all_bits(last: u32) -> u32
    requires { last < 32 }
    ensures value { result ≡ all_bits_of last }
    ensures bits { HasBitsTo result last }
{
    u32::MAX >> (31 - last)
}
