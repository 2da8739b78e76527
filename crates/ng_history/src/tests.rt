use crate::{Book, Entry, Live};
use std::test::Fail;

#[test]
fn entries_stay_in_order(rt: HostRuntime) -> Result<(), Fail> {
    let give = Entry::Give {
        n: 20,
        align: 16,
        at: 0x2040,
    };
    let take = Entry::Take { at: 0x2040 };
    let mut book = Book::open(rt.alloc(), 3, 2)?;
    assert_eq!(rt; book.spare(), 2);
    book.push(give);
    book.push(take);
    assert_eq!(rt; book.number(), 3);
    assert_eq!(rt; book.spare(), 0);
    assert_eq!(rt; book.entries(), [give, take].as_slice());
    Ok(())
}

/// Gives of blocks with the common alignment.
const fn give(at: u64, n: u64) -> Entry {
    Entry::Give { n, align: 16, at }
}

#[test]
fn steps_are_taken_in_where_they_are_legal(rt: HostRuntime) -> Result<(), Fail> {
    let mut live = Live::open(rt.alloc(), 32)?;
    // A space of 16 pages. Each entry beside whether it is legal at its place.
    let steps = [
        (give(0x1010, 20), true),
        (give(0x1020, 4), false),
        (give(0x1018, 4), false),
        (give(0xff0, 4), false),
        (give(0xfff0, 17), false),
        (give(0x1030, 0), true),
        (give(0x1030, 0), false),
        (Entry::Take { at: 0x1020 }, false),
        (Entry::Resize { at: 0x1010, n: 32 }, true),
        (Entry::Resize { at: 0x1010, n: 33 }, false),
        (Entry::Take { at: 0x1010 }, true),
        (Entry::Take { at: 0x1010 }, false),
        (Entry::NoMemory { n: 5, excuse: 1 }, true),
        (Entry::NoMemory { n: 5, excuse: 1 }, false),
        (Entry::NoMemory { n: 5, excuse: 0 }, false),
        (
            Entry::NoMemory {
                n: 5,
                excuse: u64::MAX,
            },
            true,
        ),
        (
            Entry::NoMemory {
                n: 5,
                excuse: u64::MAX,
            },
            true,
        ),
        (
            Entry::TooLarge {
                count: 1,
                size: 0x7fff_ffff_ffff_efff,
                align: 16,
            },
            true,
        ),
        (
            Entry::TooLarge {
                count: 1,
                size: 0x7fff_ffff_ffff_effe,
                align: 16,
            },
            false,
        ),
        (
            Entry::TooLarge {
                count: 1 << 33,
                size: 1 << 33,
                align: 16,
            },
            true,
        ),
        (Entry::BadAlign { align: 24 }, true),
        (Entry::BadAlign { align: 0 }, false),
        (Entry::Refused { at: 3, name: 15 }, true),
        (Entry::Refused { at: 3, name: 16 }, false),
    ];
    for (entry, legal) in steps {
        assert_eq!(rt; live.step(&entry, 0x10000), legal, "{entry:?}");
    }
    Ok(())
}
