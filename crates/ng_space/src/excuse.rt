ghost use Rattle.std.specs.Prelude.{◌≡◌};

use crate::name::Name;
use std::marker::{Model, PhantomData};

/// The excuse of a refused map call, in a hand, which may enter a request as out of memory with it. It
/// is spent by the call that it is moved into.
pub struct Excuse<N: Name> {
    pub(crate) number: u64,
    // The number of the hand that has the excuse.
    pub(crate) hand: u32,
    pub(crate) of: PhantomData<N>,
}

impl<N: Name> Model for Excuse<N> {
    ghost use Rattle.ng_space.specs.Passed.{ExcuseToken};

    ghost Value = { ExcuseToken };

    ghost view = { λ excuse. record { number = excuse.number; hand = excuse.hand } };
}

impl<N: Name> Excuse<N> {
    /// The number of the refused call.
    pub fn number(&self) -> u64
        ensures { result ≡ self.now.number }
    {
        self.number
    }
}
