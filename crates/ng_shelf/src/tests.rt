use crate::{
    FreeMetas, MetaStock, Parents, RunShape, first_active, is_nested_size, raised, run_shape,
};
use ng_class::units;
use ng_meta::is_meta_place;
use ng_policy::Ask;
use std::test::Fail;

// The first metas of page 1 and its last, the first of page 2, and the last of page 15.
const A: u64 = 0x1018;

const B: u64 = 0x1040;

const C: u64 = 0x1fb8;

const D: u64 = 0x2018;

const E: u64 = 0xffb8;

#[derive(Clone, Copy, Debug)]
enum Step {
    Put(u64),
    Take(Option<u64>),
}

#[test]
fn oldest_first(rt: HostRuntime) -> Result<(), Fail> {
    let mut free = FreeMetas::open(rt.alloc(), 16)?;
    let steps = [
        Step::Take(None),
        Step::Put(C),
        Step::Take(Some(C)),
        Step::Take(None),
        Step::Put(B),
        Step::Put(A),
        Step::Put(E),
        Step::Take(Some(B)),
        // one that was in the list before
        Step::Put(B),
        Step::Put(D),
        Step::Take(Some(A)),
        Step::Take(Some(E)),
        Step::Take(Some(B)),
        Step::Take(Some(D)),
        Step::Take(None),
    ];
    for (at, step) in steps.into_iter().enumerate() {
        match step {
            Step::Put(meta) => {
                assert!(rt; is_meta_place(meta, 16) && !free.has(meta), "step {at}");
                free.put(meta);
                assert!(rt; free.has(meta), "step {at}");
            }
            Step::Take(want) => assert_eq!(rt; free.take(), want, "step {at}"),
        }
    }
    // in page 0 and in a head, between two metas, past the space
    for other in [0, 0x18, 0x1000, 0x1020, 0x1_0018, 0xffff_ffff_ffff_f018] {
        assert!(rt; !free.has(other), "{other:#x} in the list");
    }
    Ok(())
}

#[test]
fn returned_before_unused(rt: HostRuntime) -> Result<(), Fail> {
    let mut stock = MetaStock::open(rt.alloc(), 16)?;
    stock.add_area(0x1000);
    assert_eq!(rt; stock.area(), 0x1000);
    assert!(rt; is_meta_place(D, 16));
    stock.put(D);
    assert_eq!(rt; stock.take(), Some(D));
    assert_eq!(rt; stock.take(), Some(A));
    assert_eq!(rt; stock.take(), Some(B));
    Ok(())
}

#[test]
fn largest_space(rt: HostRuntime) -> Result<(), Fail> {
    let mut free = FreeMetas::open(rt.alloc(), 16384)?;
    let last = 0x3ff_ffb8;
    assert!(rt; is_meta_place(last, 16384) && !free.has(last));
    free.put(last);
    assert_eq!(rt; free.take(), Some(last));
    let mut parents = Parents::open(rt.alloc(), 16384)?;
    parents.set(last, last, 31);
    assert_eq!(rt; parents.of(last), (last, 31));
    Ok(())
}

#[test]
fn each_meta_has_its_parent(rt: HostRuntime) -> Result<(), Fail> {
    let mut parents = Parents::open(rt.alloc(), 16)?;
    assert!(rt; is_meta_place(A, 16) && is_meta_place(D, 16) && is_meta_place(E, 16));
    parents.set(A, E, 31);
    parents.set(D, A, 0);
    assert_eq!(rt; parents.of(A), (E, 31));
    assert_eq!(rt; parents.of(D), (A, 0));
    parents.set(A, D, 7);
    assert_eq!(rt; parents.of(A), (D, 7));
    Ok(())
}

#[test]
fn nested_up_to_2048_bytes(rt: HostRuntime) {
    // class, slots, whether 16 * units * slots + 16 is at most 2048
    let rows = [
        (0, 30, true),
        (3, 31, true),
        (7, 15, true),
        (7, 16, false),
        (11, 8, true),
        (11, 9, false),
        // 2032 + 16 is 2048
        (23, 1, true),
        (23, 2, false),
        (24, 1, false),
    ];
    for (class, count, want) in rows {
        assert!(rt; class < 48 && count >= 1 && count <= 32);
        assert!(rt; units(class) * u64::from(count) < 65536);
        assert_eq!(rt;
            is_nested_size(class, count),
            want,
            "{count} of class {class}"
        );
    }
}

#[test]
fn shapes_of_runs(rt: HostRuntime) {
    // class, usage, usage of the next class, bouncing, bytes, slots wanted; slots, pages
    let rows = [
        // two slots of 2032 in a page: the block's own page isn't below 2048
        (23, 0, 0, false, 2028, 2, 2, 1),
        // slots of 4672: a page for the block is below 4688, two aren't
        (28, 0, 0, false, 4076, 5, 1, 1),
        (28, 0, 0, false, 4077, 5, 5, 6),
        (28, 0, 0, true, 4076, 5, 5, 6),
        // slots of 16368: three pages for the block are below 16384, four are 16384
        (35, 13, 0, false, 12268, 8, 8, 32),
        (35, 99, 0, false, 12268, 7, 1, 3),
        (35, 13, 0, false, 12269, 7, 1, 4),
        (35, 14, 0, false, 12269, 7, 7, 28),
        (35, 7, 6, false, 12269, 7, 1, 4),
        (35, 7, 7, false, 12269, 7, 7, 28),
        // two pages are neither below 8192 nor large
        (31, 0, 0, false, 8172, 2, 2, 4),
        (47, 2, 0, false, 131052, 1, 1, 32),
        (47, 2, 0, false, 112000, 1, 1, 28),
    ];
    for (class, usage, near, bouncing, bytes, wanted, count, pages) in rows {
        assert!(rt; class < 48 && wanted >= 1 && wanted <= 32);
        assert!(rt; usage < 100 && near < 100 && bytes < 200_000);
        assert!(rt; bytes + 4 <= 16 * units(class));
        assert!(rt; units(class) * u64::from(wanted) < 65536);
        let ask = Ask {
            class,
            usage,
            near,
            bouncing,
        };
        let shape = run_shape(&ask, bytes, wanted);
        assert_eq!(rt;
            shape,
            RunShape { count, pages },
            "{wanted} of {ask:?} for {bytes}"
        );
    }
}

#[test]
fn active_slots(rt: HostRuntime) {
    // class, slots, the highest index in use at first: 4080 / (16 * units) - 1
    let rows = [
        (0, 30, 29),
        (7, 31, 30),
        (12, 28, 13),
        (12, 7, 6),
        (16, 7, 6),
        (16, 28, 6),
        (23, 2, 1),
        (23, 32, 1),
        (24, 7, 0),
        (47, 1, 0),
    ];
    for (class, count, want) in rows {
        assert!(rt; class < 48 && count >= 1 && count <= 32);
        assert!(rt; units(class) * u64::from(count) < 65536);
        assert_eq!(rt;
            first_active(class, count),
            want,
            "{count} of class {class}"
        );
    }
}

#[test]
fn active_slots_rise(rt: HostRuntime) {
    // class, the highest index in use before, the last; the highest afterwards
    let rows = [
        // slots of 16 bytes cross no pages
        (0, 0, 29, 29),
        (2, 0, 31, 31),
        (3, 0, 31, 31),
        // slot 14 of 288 bytes lies from 4048 to 4335
        (12, 0, 27, 13),
        (12, 12, 27, 13),
        (12, 13, 27, 27),
        // slot 8 of 496 bytes lies from 3984 to 4479
        (15, 6, 31, 7),
        (15, 7, 31, 15),
        (19, 0, 31, 3),
        (19, 3, 31, 7),
        (19, 30, 31, 31),
        (22, 0, 19, 1),
        (22, 1, 19, 4),
        (23, 1, 31, 3),
        // each slot of 4080 bytes but the first crosses pages
        (27, 0, 7, 1),
        (27, 5, 7, 6),
        (47, 0, 1, 1),
    ];
    for (class, active, last, want) in rows {
        assert!(rt; class < 48 && active < last && last < 32);
        assert_eq!(rt;
            raised(class, active, last),
            want,
            "{active} of class {class}"
        );
    }
}
