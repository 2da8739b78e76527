//! Where the parts of pages, metas and groups are, in bytes.

/// The bytes of a page.
pub const PAGE_BYTES: u64 = 4096;

/// How many metas an area has.
pub const METAS: u32 = 101;

/// The bytes of an area before its first meta.
pub(crate) const HEAD_BYTES: u64 = 24;

/// The bytes of a meta.
pub(crate) const META_BYTES: u64 = 40;

/// Of a meta: where its group's address is.
pub const MEM: u64 = 16;

/// Of a meta: where its avail word is, with the avail mask in its low half and the tag above.
pub const AVAIL: u64 = 24;

/// Of a meta: where its freed mask is.
pub const FREED: u64 = 28;

/// Of a meta: where the low half of its flags is, whose lowest five bits are the group's last index.
pub const FLAGS: u64 = 32;

/// The bytes of a group before its first slot.
pub const GROUP_HEAD: u64 = 16;

/// Of a group: where the highest index of its slots in use is, from its base on.
pub const ACTIVE: u64 = 8;
