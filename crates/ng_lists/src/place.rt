//! Metas by number: those of page k are the 101 numbers from 101 * k on.
ghost use Rattle.std.specs.Prelude.{◌≡◌, ◌<◌, ◌≤◌, ◌%◌, ◌^◌};
ghost use Rattle.ng_lists.specs.Place.{address_at, index_at};

use ng_meta::{METAS, PAGE_BYTES, meta_at};

/// The index of the meta at an address.
pub fn index_of(meta: u64) -> u32
    requires low { meta < 2 ^ 26 }
    requires behind_head { 24 ≤ meta % 4096 }
    ensures { result ≡ index_at meta }
{
    let page = (meta / 4096) as u32;
    let behind = (meta % 4096 - 24) as u32;
    METAS * page + behind / 40
}

/// The address of the meta at an index.
pub fn address_of(index: u32) -> u64
    requires { index < 2 ^ 21 }
    ensures { result ≡ address_at index }
{
    meta_at(PAGE_BYTES * u64::from(index / METAS), index % METAS)
}
