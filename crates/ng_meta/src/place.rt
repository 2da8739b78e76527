ghost use Rattle.std.specs.Prelude.{◌%◌, ◌<◌, ◌^◌, ◌≡◌, ◌↔◌, IsTrue};
ghost use Rattle.ng_meta.specs.Place.{IsApartFromOthers, IsMetaPlace, LiesIn, area_at, meta_place};

use crate::layout::{HEAD_BYTES, META_BYTES, METAS, PAGE_BYTES};

/// The address of meta `i`, below 101, in the area at a page's address.
pub fn meta_at(area: u64, i: u32) -> u64
    requires index { i < 101 }
    requires page { area % 4096 ≡ 0 }
    requires low { area < 2 ^ 32 }
    ensures place { result ≡ meta_place area i }
    ensures inside { LiesIn area result }
    ensures area { area_at result ≡ area }
    ensures apart { IsApartFromOthers area i result }
{
    area + HEAD_BYTES + META_BYTES * u64::from(i)
}

/// Whether a meta may stand at an address, in a space of so many pages.
#[tactic(auto, using(crate::proofs::PlaceLemmas::meta_from_parts))]
pub fn is_meta_place(addr: u64, pages: u32) -> bool
    ensures { IsTrue result ↔ IsMetaPlace addr pages }
{
    let page = addr / PAGE_BYTES;
    let at = addr % PAGE_BYTES;
    if page == 0 || page >= u64::from(pages) || at < HEAD_BYTES {
        return false;
    }
    let behind = at - HEAD_BYTES;
    behind % META_BYTES == 0 && behind / META_BYTES < u64::from(METAS)
}

/// The address of the page that an address lies in.
pub fn area_of(addr: u64) -> u64
    ensures { result ≡ area_at addr }
{
    addr & !(PAGE_BYTES - 1)
}
