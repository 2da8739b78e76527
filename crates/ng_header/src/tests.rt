use crate::{Ib, NominalFault, Trailer, cell_of, cycle, ib_of, nominal, reserved_of, trailer};

fn header(check: u8, index: u32, reserved: u32, offset: u32) -> Ib {
    Ib {
        check,
        index,
        reserved,
        offset,
    }
}

#[test]
fn header_cells(rt: HostRuntime) {
    let rows = [
        // the first and the second block of 20 bytes in slots of 32
        ([0x00, 0xa0, 0x00, 0x00], header(0, 0, 5, 0)),
        ([0x00, 0xa1, 0x02, 0x00], header(0, 1, 5, 2)),
        // a block 130559 units behind its storage: that number stands in the cell before
        ([0x01, 0xa0, 0x00, 0x00], header(1, 0, 5, 0)),
        // what a free leaves; a parent slot; the start of a slot whose block stands further on
        ([0x00, 0xff, 0x00, 0x00], header(0, 31, 7, 0)),
        ([0x00, 0xc1, 0x7f, 0x00], header(0, 1, 6, 127)),
        ([0x00, 0xe0, 0x01, 0x02], header(0, 0, 7, 0x201)),
        ([0xff, 0xff, 0xff, 0xff], header(255, 31, 7, 65535)),
    ];
    for (bytes, ib) in rows {
        let cell = u32::from_le_bytes(bytes);
        let fields = ib_of(cell);
        assert_eq!(rt; fields, ib, "fields of {cell:#x}");
        assert_eq!(rt; cell_of(fields), cell, "cell of {ib:?}");
    }
}

#[test]
fn offsets_cycle_within_the_slack(rt: HostRuntime) {
    let by_field = [
        (0u16, 3, 1),
        (1, 3, 2),
        (3, 3, 0),
        (254, 3, 3),
        (255, 3, 0),
        (6, 2, 0),
        (65535, 300, 0),
    ];
    for (old, slack, offset) in by_field {
        let found = cycle(Some(u32::from(old)), slack, 9);
        assert_eq!(rt; found, offset, "after {old} with slack {slack}");
    }
    let by_counter = [
        (0, 0, 0),
        (0, 5, 0),
        (3, 7, 3),
        (5, 1, 1),
        (2, 6, 2),
        (2, 7, 0),
        (200, 255, 54),
        (255, 255, 255),
        (300, 511, 255),
    ];
    for (slack, counter, offset) in by_counter {
        assert_eq!(rt;
            cycle(None, slack, counter),
            offset,
            "{counter} with slack {slack}"
        );
    }
}

fn behind(field: u32, zero_at: Option<u64>, word: Option<u32>) -> Trailer {
    Trailer {
        field,
        zero_at,
        word,
    }
}

#[test]
fn trailers(rt: HostRuntime) {
    let rows = [
        (0, behind(0, None, None)),
        (1, behind(1, Some(1), None)),
        (4, behind(4, Some(4), None)),
        (5, behind(5, Some(5), Some(5))),
        (6, behind(5, Some(6), Some(6))),
        (u32::MAX, behind(5, Some(4294967295), Some(4294967295))),
    ];
    for (reserved, written) in rows {
        assert_eq!(rt;
            trailer(u64::from(reserved)),
            written,
            "for {reserved} bytes"
        );
    }
}

#[test]
fn reserved_numbers(rt: HostRuntime) {
    let bad = Err(NominalFault::BadReserved);
    let rows = [
        (0, 99, 1, 20, Ok(0)),
        (3, 0, 0, 20, Ok(3)),
        (4, 9, 9, 4, Ok(4)),
        (4, 9, 9, 3, bad),
        (5, 5, 0, 5, Ok(5)),
        (5, 4, 0, 28, bad),
        (5, 8, 1, 28, bad),
        (5, 28, 0, 28, Ok(28)),
        (5, 29, 0, 28, bad),
        (6, 0, 0, 28, bad),
        (7, 8, 0, 28, bad),
    ];
    for (field, word, fifth, gap, reserved) in rows {
        assert!(rt; field < 8);
        let found = reserved_of(field, word, fifth, gap);
        assert_eq!(rt;
            found,
            reserved,
            "field {field}, number {word}, then {fifth}, gap {gap}"
        );
    }
}

#[test]
fn nominal_lengths(rt: HostRuntime) {
    let rows = [
        (28, 8, 0, 0, Ok(20)),
        (28, 8, 1, 0, Err(NominalFault::Overrun)),
        (28, 8, 1, 1, Err(NominalFault::Overrun)),
        (28, 8, 0, 1, Err(NominalFault::EndByte)),
        (28, 0, 1, 0, Ok(28)),
        (28, 0, 1, 1, Err(NominalFault::EndByte)),
        (4, 4, 0, 0, Ok(0)),
    ];
    for (gap, reserved, mark, last, length) in rows {
        assert!(rt; reserved <= gap);
        let found = nominal(gap, reserved, mark, last);
        assert_eq!(rt;
            found,
            length,
            "gap {gap}, reserved {reserved}, then {mark}, {last}"
        );
    }
}
