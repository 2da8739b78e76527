use crate::Quota;
use ng_mapper::{FirstFit, Mapper};
use std::test::Fail;

/// The number of a refused call, or none where the call was served.
fn refused_number<M: Mapper>(mapper: &mut M, pages: u64) -> Option<u64> {
    mapper.map(pages.max(1)).err().map(|refused| refused.number)
}

#[test]
fn a_limit_of_one_page(rt: HostRuntime) -> Result<(), Fail> {
    let inner = FirstFit::new(rt.alloc(), 16, Vec::new(rt.alloc()))?;
    let mut mapper = Quota::new(inner, 1);
    assert_eq!(rt; refused_number(&mut mapper, 1), None);
    assert_eq!(rt; refused_number(&mut mapper, 1), Some(1));
    assert_eq!(rt; (mapper.live_pages(), mapper.refusals()), (1, 1));
    if let Some(pages) = mapper.run_at(0x1000) {
        mapper.unmap(0x1000, pages);
    }
    assert_eq!(rt; (mapper.live_pages(), mapper.refusals()), (0, 1));
    assert_eq!(rt; refused_number(&mut mapper, 1), None);
    assert_eq!(rt; (mapper.live_pages(), mapper.refusals()), (1, 1));
    Ok(())
}

// The inner mapper refuses its first call and its third. What the quota refuses is none of its calls, and each other is one.
#[test]
fn a_listed_call_and_one_over_the_limit(rt: HostRuntime) -> Result<(), Fail> {
    let inner = FirstFit::new(rt.alloc(), 16, [1, 3].to_vec(rt.alloc())?)?;
    let mut mapper = Quota::new(inner, 3);
    assert_eq!(rt; refused_number(&mut mapper, 4), Some(1));
    assert_eq!(rt; (mapper.live_pages(), mapper.refusals()), (0, 1));
    assert_eq!(rt; refused_number(&mut mapper, 1), Some(2));
    assert_eq!(rt; (mapper.live_pages(), mapper.refusals()), (0, 2));
    assert_eq!(rt; refused_number(&mut mapper, 3), None);
    assert_eq!(rt; (mapper.live_pages(), mapper.refusals()), (3, 2));
    Ok(())
}

#[test]
fn a_limit_of_no_page(rt: HostRuntime) -> Result<(), Fail> {
    let inner = FirstFit::new(rt.alloc(), 16, Vec::new(rt.alloc()))?;
    let mut mapper = Quota::new(inner, 0);
    assert_eq!(rt; refused_number(&mut mapper, 1), Some(1));
    assert_eq!(rt; (mapper.live_pages(), mapper.refusals()), (0, 1));
    Ok(())
}
