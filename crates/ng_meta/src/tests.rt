use crate::{
    Fields, area_of, avail_word, cells_of, fields_of, is_meta_place, is_secret, mask_of, meta_at,
    tag_of,
};

fn group(last: u32, freeable: bool, class: u32, maplen: u64) -> Fields {
    Fields {
        last,
        freeable,
        class,
        maplen,
    }
}

#[test]
fn flags(rt: HostRuntime) {
    let rows = [
        // class 1 with 15 slots; class 23 with 2 slots and a run of one page
        ([0x6e, 0x00, 0x00, 0x00], 0, group(14, true, 1, 0)),
        ([0xe1, 0x15, 0x00, 0x00], 0, group(1, true, 23, 1)),
        // one block in a run of 513 pages; no group
        ([0xe0, 0x1f, 0x20, 0x00], 0, group(0, true, 63, 513)),
        ([0x00, 0x00, 0x00, 0x00], 0, group(0, false, 0, 0)),
        // what no group has, but a forged meta may
        ([0x00, 0x00, 0x00, 0x00], 1, group(0, false, 0, 0x10_0000)),
        (
            [0xff, 0xff, 0xff, 0xff],
            u32::MAX,
            group(31, true, 63, 0xf_ffff_ffff_ffff),
        ),
    ];
    for (bytes, high, fields) in rows {
        let low = u32::from_le_bytes(bytes);
        let found = fields_of(low, high);
        assert_eq!(rt; found, fields, "fields of {low:#x}, {high:#x}");
        assert_eq!(rt; cells_of(found), (low, high), "cells of {fields:?}");
    }
}

#[test]
fn places(rt: HostRuntime) {
    let rows = [
        (0x1000, 0, 0x1018),
        (0x1000, 1, 0x1040),
        (0x1000, 100, 0x1fb8),
        (0xffff_f000, 100, 0xffff_ffb8),
    ];
    for (area, i, place) in rows {
        assert!(rt; area % 4096 == 0 && area < 0x1_0000_0000 && i < 101);
        let found = meta_at(area, i);
        assert_eq!(rt; found, place, "meta {i} of {area:#x}");
        assert_eq!(rt; area_of(found), area, "the area of {place:#x}");
    }
}

#[test]
fn meta_places(rt: HostRuntime) {
    let rows = [
        (0x1018, 16, true),
        (0x1fb8, 16, true),
        (0xffb8, 16, true),
        // in page 0; in a head; between two metas; where meta 101 would be
        (0x18, 16, false),
        (0x1000, 16, false),
        (0x1020, 16, false),
        (0x1fe0, 16, false),
        // past the space
        (0x1018, 1, false),
        (0x1_0018, 16, false),
        (0xffff_ffff_ffff_f018, 16384, false),
    ];
    for (addr, pages, is_place) in rows {
        assert_eq!(rt;
            is_meta_place(addr, pages),
            is_place,
            "{addr:#x} in {pages} pages"
        );
    }
}

#[test]
fn words(rt: HostRuntime) {
    let rows = [
        (0, 0x7fff_fffe, 0x1_7fff_fffe),
        (23, 2, 0x18_0000_0002),
        (47, u32::MAX, 0x30_ffff_ffff),
        (63, 0, 0x40_0000_0000),
    ];
    for (class, mask, word) in rows {
        assert!(rt; class < 64);
        let found = avail_word(class, mask);
        assert_eq!(rt; found, word, "class {class} with mask {mask:#x}");
        assert_eq!(rt;
            (tag_of(found), mask_of(found)),
            (class + 1, mask),
            "halves of {word:#x}"
        );
    }
}

#[test]
fn secrets(rt: HostRuntime) {
    let rows = [
        (0x89ab_cdef, 0x0123_4567, true),
        (0x0123_4567, 0x89ab_cdef, false),
        (0x89ab_cdef, 0x0123_4566, false),
        (0x89ab_cdee, 0x0123_4567, false),
    ];
    for (low, high, is) in rows {
        assert_eq!(rt;
            is_secret(low, high, 0x0123_4567_89ab_cdef),
            is,
            "{low:#x}, {high:#x}"
        );
    }
}
