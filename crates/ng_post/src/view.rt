//! What a pass to a box knows.

use std::collections::LinkedList;

/// What a pass to a box knows. No value of it is made.
pub struct View {
    /// Whether letters are put in by it.
    pub sends: bool,
    /// The sender's number.
    pub from: u32,
    /// What the sender has put in.
    pub put: LinkedList<(u64, Option<u64>)>,
    /// Whether letters are taken out by it.
    pub gets: bool,
    /// What was taken out, each letter with its sender.
    pub got: LinkedList<(u32, (u64, Option<u64>))>,
    /// Whether it makes the senders, and takes them in when they have ended.
    pub leads: bool,
    /// How many senders there are, numbered from 0.
    pub made: u32,
    /// Of each sender that has ended what it had put in.
    pub known: LinkedList<LinkedList<(u64, Option<u64>)>>,
}
