/// What is stored for the reserved bytes between a block's own last byte and its slot's end.
#[derive(Clone, Copy, Debug, PartialEq, Eq)]
pub struct Trailer {
    /// The reserved field of the block's header, at most 5.
    pub field: u32,
    /// How many bytes before the end a byte is 0, if one is.
    pub zero_at: Option<u64>,
    /// The number in the last four bytes, if there is one. The byte before it is then 0 too.
    pub word: Option<u32>,
}
