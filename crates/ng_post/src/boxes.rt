//! Boxes and doors.
ghost use Rattle.std.specs.Prelude.{◌<◌, All, vec_len};

use crate::mail::Letter;
use crate::rule::{Key, MailBox};
use ng_space::Name;

/// A box for each log, and the log that receives each number.
#[derive(Drop)]
pub struct Boxes<N: Name> {
    pub(crate) boxes: Vec<MailBox<N>>,
    pub(crate) receivers: Vec<u32>,
    /// For each number its rank among those that its receiver receives.
    pub(crate) ranks: Vec<u32>,
    ghost within: { All (λ log. log < vec_len boxes) receivers.items },
}

/// A log's door to all boxes.
#[derive(Drop)]
pub struct Door<N: Name> {
    /// The log's number, from 0.
    pub(crate) log: u32,
    /// Takes letters out of the log's own box.
    pub(crate) own: Key<N>,
    /// Puts letters into each box.
    pub(crate) to: Vec<Key<N>>,
    /// Letters that came and weren't asked for yet.
    pub(crate) kept: Vec<Letter<N>>,
    /// By a number's rank, where in `kept` its letter came to lie. A place is a hint: what lies there
    /// is taken only if it has the number.
    pub(crate) places: Vec<u32>,
    /// What was posted: each number with the address of its block, or nothing.
    pub(crate) sent: Vec<(u64, Option<u64>)>,
    /// What was collected.
    pub(crate) got: Vec<(u64, Option<u64>)>,
    /// What was taken out of the box, in order.
    pub(crate) arrived: Vec<(u64, Option<u64>)>,
    /// In the first door, the pass of each box that takes the others in at the end. Boxes are
    /// shared, and a pass can't be.
    pub(crate) leads: Vec<Key<N>>,
}
