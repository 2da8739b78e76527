//! What rules are asked.

/// How many slots shall a new group have?
#[derive(Clone, Copy, Debug, PartialEq, Eq)]
pub struct Ask {
    /// The size class of the slots, from 0 to 47.
    pub class: u32,
    /// The slots of all groups of the class that are live now.
    pub usage: u64,
    /// The usage of the next class where the class is even and below 32, else 0.
    pub near: u64,
    /// Whether the class is bouncing: its groups were often unmapped and soon mapped again.
    pub bouncing: bool,
}

/// Shall a group be kept whose slots are all free?
#[derive(Clone, Copy, Debug, PartialEq, Eq)]
pub struct Spare {
    /// The size class of the slots, from 0 to 47.
    pub class: u32,
    /// The slots of the group, from 1 to 32.
    pub slots: u32,
    /// The slots of all groups of the class that are live now, with this one's.
    pub usage: u64,
    /// Whether the group is in its ring, and no other group is.
    pub alone: bool,
    /// Whether the class is bouncing.
    pub bouncing: bool,
}
