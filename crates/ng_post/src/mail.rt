//! What is posted.
ghost use Rattle.std.specs.Prelude.{◌≡◌};
ghost use Rattle.ng_post.specs.Letters.{address_of};

use ng_space::{Name, Parcel};

/// What is posted under a number: a block on its way, or nothing.
#[derive(Drop)]
pub enum Mail<N: Name> {
    Sent(Parcel<N>),
    Nothing,
}

impl<N: Name> Mail<N> {
    /// The address of the block sent, if one is.
    pub(crate) fn address(&self) -> Option<u64>
        ensures { result ≡ address_of self.now }
    {
        match self {
            Mail::Sent(parcel) => Some(parcel.at()),
            Mail::Nothing => None,
        }
    }
}

/// Mail on its way, with the log that sent it and its number.
#[derive(Drop)]
pub struct Letter<N: Name> {
    pub(crate) from: u32,
    pub(crate) number: u64,
    pub(crate) mail: Mail<N>,
}
