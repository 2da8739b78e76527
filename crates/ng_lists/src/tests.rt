ghost use Rattle.std.specs.Prelude.{◌<◌, All, Contains, IfOk, IsTrue};
ghost use Rattle.ng_lists.specs.Rings.{ring_of};

use crate::Rings;
use ng_meta::is_meta_place;
use std::alloc::{AllocError, Global};
use std::test::Fail;

// The first metas of page 1 and its last, the first of page 2, and the last of page 15.
const A: u64 = 0x1018;

const B: u64 = 0x1040;

const C: u64 = 0x1fb8;

const D: u64 = 0x2018;

const E: u64 = 0xffb8;

#[derive(Clone, Copy, Debug)]
enum Step {
    Enqueue,
    Dequeue,
    Rotate,
}

/// The ring of a class by `first` and `next`, of which it asks eight times at most.
fn ring(alloc: Global, rings: &Rings, class: u32) -> Result<Vec<u64>, AllocError>
    requires { class < 48 }
    ensures members { IfOk result (λ metas. All (Contains (ring_of rings.now class)) metas.items) }
{
    rings.stand_once();
    let mut metas = Vec::new(alloc);
    let Some(first) = rings.first(class) else {
        return Ok(metas);
    };
    let mut at = first;
    for _ in 0..8 {
        metas.push(at)?;
        at = rings.next(at);
        if at == first {
            return Ok(metas);
        }
    }
    Ok(metas)
}

/// Whether a meta is in the ring of a class.
fn is_in(alloc: Global, rings: &Rings, class: u32, meta: u64) -> Result<bool, AllocError>
    requires { class < 48 }
    ensures member { IfOk result (λ is. IsTrue is → Contains (ring_of rings.now class) meta) }
{
    for other in &ring(alloc, rings, class)? {
        if *other == meta {
            return Ok(true);
        }
    }
    Ok(false)
}

#[test]
fn steps(rt: HostRuntime) -> Result<(), Fail> {
    let mut rings = Rings::open(rt.alloc(), 16)?;
    // a step at a meta, and the ring of its class after it, with zeros behind
    let table = [
        (Step::Enqueue, 3, A, [A, 0, 0, 0]),
        (Step::Enqueue, 3, B, [A, B, 0, 0]),
        (Step::Enqueue, 3, C, [A, B, C, 0]),
        (Step::Enqueue, 47, E, [E, 0, 0, 0]),
        // to the last, to the first, to one in the middle
        (Step::Rotate, 3, C, [C, A, B, 0]),
        (Step::Rotate, 3, C, [C, A, B, 0]),
        (Step::Rotate, 3, A, [A, B, C, 0]),
        (Step::Enqueue, 3, D, [A, B, C, D]),
        (Step::Rotate, 3, C, [C, D, A, B]),
        // one in the middle, the first, the last
        (Step::Dequeue, 3, A, [C, D, B, 0]),
        (Step::Dequeue, 3, C, [D, B, 0, 0]),
        (Step::Enqueue, 3, A, [D, B, A, 0]),
        (Step::Dequeue, 3, A, [D, B, 0, 0]),
        (Step::Rotate, 3, B, [B, D, 0, 0]),
        (Step::Dequeue, 3, D, [B, 0, 0, 0]),
        (Step::Rotate, 3, B, [B, 0, 0, 0]),
        // the only one
        (Step::Dequeue, 3, B, [0, 0, 0, 0]),
        // in the ring of another class from now on
        (Step::Enqueue, 47, B, [E, B, 0, 0]),
        (Step::Enqueue, 3, A, [A, 0, 0, 0]),
        (Step::Dequeue, 47, E, [B, 0, 0, 0]),
    ];
    for (step, class, meta, want) in table {
        assert!(rt; class < 48 && is_meta_place(meta, 16));
        let had = is_in(rt.alloc(), &rings, class, meta)?;
        match step {
            Step::Enqueue => {
                assert!(rt; !rings.has(meta));
                rings.enqueue(class, meta);
            }
            Step::Dequeue => {
                assert!(rt; had);
                rings.dequeue(class, meta);
            }
            Step::Rotate => {
                assert!(rt; had);
                rings.rotate(class, meta);
            }
        }
        let has = ring(rt.alloc(), &rings, class)?;
        assert!(rt;
            has.iter()
                .copied()
                .eq(want.into_iter().take_while(|meta| *meta != 0)),
            "{step:?} of {meta:#x} in {class}: {has:?}"
        );
    }
    Ok(())
}

#[test]
fn neighbours(rt: HostRuntime) -> Result<(), Fail> {
    let mut rings = Rings::open(rt.alloc(), 16)?;
    for (class, meta) in [(7, A), (7, B), (7, C), (8, D)] {
        assert!(rt; class < 48 && is_meta_place(meta, 16) && !rings.has(meta));
        rings.enqueue(class, meta);
    }
    let firsts = [(0, None), (7, Some(A)), (8, Some(D)), (9, None), (47, None)];
    for (class, first) in firsts {
        assert!(rt; class < 48);
        assert_eq!(rt; rings.first(class), first, "the first of {class}");
    }
    // a meta, the one after it, and whether it is alone
    for (meta, next, alone) in [(A, B, false), (B, C, false), (C, A, false), (D, D, true)] {
        assert!(rt; rings.has(meta), "{meta:#x} in a ring");
        assert_eq!(rt;
            (rings.next(meta), rings.alone(meta)),
            (next, alone),
            "of {meta:#x}"
        );
    }
    // a meta in no ring, places in page 0 and in a head, between two metas, past the space
    for other in [E, 0, 0x18, 0x1000, 0x1020, 0x1_0018, 0xffff_ffff_ffff_f018] {
        assert!(rt; !rings.has(other), "{other:#x} in a ring");
    }
    Ok(())
}

#[test]
fn largest_space(rt: HostRuntime) -> Result<(), Fail> {
    let mut rings = Rings::open(rt.alloc(), 16384)?;
    let last = 0x3ff_ffb8;
    assert!(rt; is_meta_place(last, 16384) && !rings.has(last));
    rings.enqueue(0, last);
    assert_eq!(rt; rings.first(0), Some(last));
    Ok(())
}
