use ng_space::{Name, Slot};

/// What came of a pop.
pub enum Pop<N: Name> {
    /// A slot of the group, which is now the hand's.
    Won(Slot<N>),
    /// The avail mask of the group is 0.
    Bare,
    /// The meta has a group of another class, whose tag this is, or none, with tag 0.
    Other { tag: u32 },
    /// Others changed the word before each of 32 exchanges.
    Lost,
}

/// What a push still needs that left its slot.
#[derive(Clone, Copy, Debug, PartialEq, Eq)]
pub enum Needs {
    /// The freed mask is 0: the slot would be the first that is freed.
    First,
    /// With the slot, all slots of the group are in its two masks.
    Last { freed: u32, avail: u32 },
    /// Others changed the word before each of 32 exchanges.
    Lost,
}

/// What came of a push.
pub enum Push<N: Name> {
    /// The slot is in the freed mask.
    Done,
    /// The slot is still the hand's.
    Left(Slot<N>, Needs),
}
