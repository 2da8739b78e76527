use super::*;

#[test]
fn classes_of_sizes(rt: HostRuntime) {
    let rows = [
        (0, Some(0)),
        (0xc, Some(0)),
        (0xd, Some(1)),
        (0x9c, Some(9)),
        (0x9d, Some(10)),
        (131051, Some(47)),
        (131052, None),
        (u64::MAX, None),
    ];
    for (n, class) in rows {
        assert_eq!(rt; class_of(n), class, "at {n}");
    }
}

#[test]
fn units_of_classes(rt: HostRuntime) {
    let rows = [
        (0, 1),
        (9, 10),
        (12, 18),
        (23, 127),
        (33, 682),
        (46, 6552),
        (47, 8191),
    ];
    for (class, size) in rows {
        assert_eq!(rt; units(class), size, "at {class}");
    }
    assert_eq!(rt; UNIT * units(47), THRESHOLD + IB);
}

#[test]
fn strides_and_rooms(rt: HostRuntime) {
    let rows = [
        (0, 29, 0, 16, 16),
        (9, 9, 1, 160, 160),
        (9, 0, 0, 160, 160),
        (28, 0, 1, 4080, 4080),
        (28, 0, 2, 8176, 4672),
        (47, 0, 32, 131056, 131056),
        (LONE, 0, 33, 135152, 135152),
        (LONE, 0, 16384, 67108848, 67108848),
    ];
    for (class, last, maplen, bytes, within) in rows {
        assert_eq!(rt;
            stride(class, last, maplen),
            bytes,
            "at {class}, {last}, {maplen}"
        );
        assert_eq!(rt;
            room(class, last, maplen),
            within,
            "at {class}, {last}, {maplen}"
        );
    }
}

#[test]
fn slots_of_a_group(rt: HostRuntime) {
    let rows = [
        (0x2050, 16, 0, 0x2050, 0x205c),
        (0x2050, 16, 4, 0x2090, 0x209c),
        (0x2410, 160, 9, 0x29b0, 0x2a4c),
        (0x2010, 131056, 0, 0x2010, 0x21ffc),
    ];
    for (storage, step, index, start, end) in rows {
        assert_eq!(rt;
            slot_start(storage, step, index),
            start,
            "at {index} of {storage}"
        );
        assert_eq!(rt;
            slot_end(storage, step, index),
            end,
            "at {index} of {storage}"
        );
    }
    slots_are_apart();
    units_rise();
}

#[test]
fn bits_of_masks(rt: HostRuntime) {
    let lowest = [
        (0, None),
        (1, Some(0)),
        (0b10100, Some(2)),
        (0xffff_fff0, Some(4)),
        (0x8000_0000, Some(31)),
    ];
    for (mask, bit) in lowest {
        assert_eq!(rt; lowest_bit(mask), bit, "at {mask}");
    }
    let all = [
        (0, 1),
        (1, 3),
        (9, 0x3ff),
        (30, 0x7fff_ffff),
        (31, 0xffff_ffff),
    ];
    for (last, mask) in all {
        assert_eq!(rt; all_bits(last), mask, "at {last}");
    }
}
