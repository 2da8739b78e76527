//! How many bytes a report takes at most.

/// The bytes of one line of a call at most: three numbers, two words and an excuse.
pub const LINE: usize = 97;

/// The bytes of a line that names a block at most.
pub const NAME_LINE: usize = 45;

/// The bytes of the lines of one op at most: of a name's line and of a call's.
pub const OP: usize = 142;

/// The bytes of a line of the summary at most: a word of eight letters, a space, twenty digits and a line feed.
pub const COUNT_LINE: usize = 30;

/// The bytes of the twelve lines of the summary at most.
pub const SUMMARY: usize = 360;
