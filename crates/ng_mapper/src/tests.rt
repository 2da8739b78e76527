use crate::{FirstFit, Mapper};
use std::test::Fail;

#[derive(Clone, Copy, Debug)]
enum Step {
    /// Asks for a run of so many pages.
    Map(u64),
    /// Gives back the run that begins there.
    Unmap(u64),
}

/// The address of a new run, or the pages of a run that was given back.
fn outcome<M: Mapper>(mapper: &mut M, step: Step) -> Option<u64> {
    match step {
        Step::Map(pages) => mapper.map(pages.max(1)).ok(),
        Step::Unmap(at) => {
            let pages = mapper.run_at(at)?;
            mapper.unmap(at, pages);
            Some(pages)
        }
    }
}

#[test]
fn gives_the_lowest_hole(rt: HostRuntime) -> Result<(), Fail> {
    let mut mapper = FirstFit::new(rt.alloc(), 16, vec![in rt.alloc(); 3]?)?;
    // a call, and then what it answers, the live pages and the refusals
    let table = [
        (Step::Map(4), (Some(0x1000), 4, 0)),
        (Step::Map(3), (Some(0x5000), 7, 0)),
        // the third map call is listed
        (Step::Map(1), (None, 7, 1)),
        (Step::Map(5), (Some(0x8000), 12, 1)),
        (Step::Unmap(0x5000), (Some(3), 9, 1)),
        // two holes of three pages are left
        (Step::Map(4), (None, 9, 2)),
        (Step::Map(2), (Some(0x5000), 11, 2)),
        (Step::Map(1), (Some(0x7000), 12, 2)),
        (Step::Map(3), (Some(0xd000), 15, 2)),
        // the space is full
        (Step::Map(1), (None, 15, 3)),
        (Step::Unmap(0x1000), (Some(4), 11, 3)),
        (Step::Map(5), (None, 11, 4)),
        (Step::Map(2), (Some(0x1000), 13, 4)),
        (Step::Map(0xffff_ffff_ffff_ffff), (None, 13, 5)),
        (Step::Unmap(0x7000), (Some(1), 12, 5)),
        (Step::Unmap(0x8000), (Some(5), 7, 5)),
        (Step::Map(6), (Some(0x7000), 13, 5)),
        // a run, but not its beginning
        (Step::Unmap(0x2000), (None, 13, 5)),
        (Step::Map(2), (Some(0x3000), 15, 5)),
    ];
    for (step, want) in table {
        let told = (
            outcome(&mut mapper, step),
            mapper.live_pages(),
            mapper.refusals(),
        );
        assert_eq!(rt; told, want, "after {step:?}");
    }
    assert_eq!(rt; mapper.pages(), 16);
    assert_eq!(rt; mapper.bounds(), (0x1000, 0x10000));
    Ok(())
}

#[test]
fn refuses_at_once_when_full(rt: HostRuntime) -> Result<(), Fail> {
    let mut mapper = FirstFit::new(rt.alloc(), 16384, vec![in rt.alloc(); 1, 1_000_000]?)?;
    assert_eq!(rt; mapper.map(1).err().map(|refused| refused.number), Some(1));
    for page in 1..16384u64 {
        assert_eq!(rt; outcome(&mut mapper, Step::Map(1)), Some(4096 * page));
    }
    for _ in 0..1_000_000 {
        assert_eq!(rt; outcome(&mut mapper, Step::Map(1)), None);
    }
    assert_eq!(rt; mapper.refusals(), 1_000_001);
    assert_eq!(rt; mapper.live_pages(), 16383);
    Ok(())
}
