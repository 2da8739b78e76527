// What `serial` writes, and the words of the heap that it closes.
use crate::calls::{replayed, replayed_into, replayed_over};
use crate::example::{LOG, REPORT};
use ng_mapper::FirstFit;
use ng_mtrace::{BytesIn, BytesOut};
use ng_quota::Quota;
use ng_space::Image;
use ng_words::Status;
use std::test::Fail;

const INPUT: &[u8] = b"= Start\n+ 0x10 0x14\n+ 0x20 0x20000\n- 0x10\n= End\n";

// An independent model of the heap gives these addresses and pages.
const INPUT_REPORT: &[u8] = b"1 malloc 0x14 0x2040\n1 malloc 0x20000 0x3030\n1 free 0x2040\n\
logs 1\ncalls 3\ngiven 2\ntaken 1\nresized 0\nnomemory 0\ntoolarge 0\nbadalign 0\nskipped 0\nabsent 0\nleft 1\npages 34\n";

const FOUR_BLOCKS: &[u8] =
    b"= Start\n+ 0x10 0x14\n+ 0x20 0x14\n+ 0x30 0x14\n+ 0x40 0x14\n- 0x20\n= End\n";

const FOUR_REPLIES: &[u8] = b"1 malloc 0x14 0x2040\n1 malloc 0x14 0x2060\n1 malloc 0x14 0x2080\n\
1 malloc 0x14 0x20a0\n1 free 0x2060\n\
logs 1\ncalls 5\ngiven 4\ntaken 1\nresized 0\nnomemory 0\ntoolarge 0\nbadalign 0\nskipped 0\nabsent 0\nleft 3\npages 2\n";

const ONE_BLOCK: &[u8] = b"= Start\n+ 0x10 0x64\n= End\n";

const ZEROS: &[u8] = b"1 calloc 0x64 0x2040\n\
logs 1\ncalls 1\ngiven 1\ntaken 0\nresized 0\nnomemory 0\ntoolarge 0\nbadalign 0\nskipped 0\nabsent 0\nleft 1\npages 2\n";

const ALIGNED: &[u8] = b"1 aligned 0x200000 0x64 0x200000\n\
logs 1\ncalls 1\ngiven 1\ntaken 0\nresized 0\nnomemory 0\ntoolarge 0\nbadalign 0\nskipped 0\nabsent 0\nleft 1\npages 514\n";

const BADLY_ALIGNED: &[u8] = b"1 aligned 0x18 0x64 BadAlign\n\
logs 1\ncalls 1\ngiven 0\ntaken 0\nresized 0\nnomemory 0\ntoolarge 0\nbadalign 1\nskipped 0\nabsent 0\nleft 0\npages 0\n";

const TWO_BLOCKS: &[u8] = b"= Start\n+ 0x10 0x14\n+ 0x20 0x14\n= End\n";

const WITHOUT_MEMORY: &[u8] = b"1 malloc 0x14 NoMemory 1\n1 malloc 0x14 NoMemory 2\n\
logs 1\ncalls 2\ngiven 0\ntaken 0\nresized 0\nnomemory 2\ntoolarge 0\nbadalign 0\nskipped 0\nabsent 0\nleft 0\npages 1\n";

/// The cell at an address of the space.
fn cell_at(image: &Image, addr: u64) -> Option<u64> {
    if addr % 4 == 0 && addr < 4096 * u64::from(image.pages()) {
        Some(image.word(addr) % 0x1_0000_0000)
    } else {
        None
    }
}

#[test]
fn the_first_path(rt: HostRuntime) -> Result<(), Fail> {
    let (status, sink) = replayed(rt.alloc(), &["serial", "--calls"], INPUT, &[], &[])?;
    assert_eq!(rt; status, Status::Done);
    assert_eq!(rt; sink.bytes(), INPUT_REPORT);
    Ok(())
}

#[test]
fn four_blocks_of_a_group(rt: HostRuntime) -> Result<(), Fail> {
    let (status, sink) = replayed(rt.alloc(), &["serial", "--calls"], FOUR_BLOCKS, &[], &[])?;
    assert_eq!(rt; status, Status::Done);
    assert_eq!(rt; sink.bytes(), FOUR_REPLIES);
    Ok(())
}

#[test]
fn a_block_made_each_way(rt: HostRuntime) -> Result<(), Fail> {
    let cases: &[(&[&str], &[u8])] = &[
        (&["serial", "--calls", "--zero"], ZEROS),
        (&["serial", "--calls", "--align", "0x200000"], ALIGNED),
        (&["serial", "--align", "24", "--calls"], BADLY_ALIGNED),
    ];
    for &(words, report) in cases {
        let (status, sink) = replayed(rt.alloc(), words, ONE_BLOCK, &[], &[])?;
        assert_eq!(rt; status, Status::Done);
        assert_eq!(rt; sink.bytes(), report);
    }
    Ok(())
}

#[test]
fn a_wide_header(rt: HostRuntime) -> Result<(), Fail> {
    let sink = BytesOut::new(rt.alloc(), 1000, Vec::new(rt.alloc()))?;
    let (status, _sink, closed) = replayed_into(
        rt.alloc(),
        &["serial", "--align", "0x200000"],
        ONE_BLOCK,
        &[],
        sink,
    )?;
    assert_eq!(rt; status, Status::Done);
    let Some(heap) = closed.as_slice().first() else {
        return Err("a heap was closed")?;
    };
    // The block begins at 0x200000, 130559 units behind the group's first slot.
    assert_eq!(rt; cell_at(&heap.image, 0x1f_fff8), Some(130_559));
    Ok(())
}

#[test]
fn the_words_of_a_closed_heap(rt: HostRuntime) -> Result<(), Fail> {
    let sink = BytesOut::new(rt.alloc(), 1000, Vec::new(rt.alloc()))?;
    let (status, sink, closed) = replayed_into(rt.alloc(), &["serial", "--calls"], LOG, &[], sink)?;
    assert_eq!(rt; status, Status::Done);
    assert_eq!(rt; sink.bytes(), REPORT);
    assert_eq!(rt; closed.len(), 1);
    let Some(heap) = closed.as_slice().first() else {
        return Err("a heap was closed")?;
    };
    // The headers of the first two blocks, and the flag words of the first meta and of the fourth.
    let cells: &[(u64, u64)] = &[
        (0x203c, 0x0000_a000),
        (0x205c, 0x0002_a100),
        (0x1038, 0x0000_006e),
        (0x10b0, 0x0000_15e1),
    ];
    for &(addr, value) in cells {
        assert_eq!(rt; cell_at(&heap.image, addr), Some(value), "at {addr}");
    }
    Ok(())
}

// The one page is that of the metas, and there is none for a group.
#[test]
fn a_quota_of_one_page(rt: HostRuntime) -> Result<(), Fail> {
    let alloc = rt.alloc();
    let mut source = BytesIn::new(TWO_BLOCKS.to_vec(alloc)?, 4, Vec::new(alloc));
    let mut sink = BytesOut::new(alloc, 1000, Vec::new(alloc))?;
    let mapper = Quota::new(FirstFit::new(alloc, 4096, Vec::new(alloc))?, 1);
    let words = ["serial", "--calls", "--quota", "1"];
    let (status, closed) = replayed_over(alloc, &words, &mut source, &mut sink, mapper)?;
    drop(closed);
    assert_eq!(rt; status, Status::Done);
    assert_eq!(rt; sink.bytes(), WITHOUT_MEMORY);
    Ok(())
}
