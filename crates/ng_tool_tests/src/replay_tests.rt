// Inputs of two logs that hand blocks over, by `serial` and by `replay`. The order of each log and the hand-offs leave one order
// of all calls, so that both write the same bytes. An independent model of the heap gives them.
use crate::calls::replayed;
use crate::choices::{count, keep};
use ng_mapper::FirstFit;
use ng_mtrace::{BytesIn, BytesOut};
use ng_policy::Policy;
use ng_replay::Open;
use ng_tool::replay;
use ng_words::Status;
use std::alloc::Global;
use std::sync::Wait;
use std::test::Fail;
use std::thread::Threads;

const ONE_HAND_OFF: &[u8] = b"= Start\n+ 0x10 0x18\n= End\n= Start\n- 0x10\n= End\n";

const ONE_HANDED_OFF: &[u8] = b"1 malloc 0x18 0x2040\n2 free 0x2040\n\
logs 2\ncalls 2\ngiven 1\ntaken 1\nresized 0\nnomemory 0\ntoolarge 0\nbadalign 0\nskipped 0\nabsent 0\nleft 0\npages 1\n";

const EACH_WAITS: &[u8] = b"= Start\n- 0x1\n+ 0x2 0x14\n= End\n= Start\n- 0x2\n+ 0x1 0x14\n= End\n";

const EACH_WAITED: &[u8] =
    b"1 skip 0x1\n1 malloc 0x14 0x2040\n2 free 0x2040\n2 malloc 0x14 0x2040\n\
logs 2\ncalls 3\ngiven 2\ntaken 1\nresized 0\nnomemory 0\ntoolarge 0\nbadalign 0\nskipped 1\nabsent 0\nleft 1\npages 2\n";

const ONE_NAME: &[u8] = b"= Start\n+ 0x10 0x14\n+ 0x10 0x14\n+ 0x20 0x14\n= End\n\
= Start\n- 0x20\n- 0x10\n- 0x10\n= End\n";

const FIRST_TO_FIRST: &[u8] = b"1 malloc 0x14 0x2040\n1 malloc 0x14 0x2060\n1 malloc 0x14 0x2080\n\
2 free 0x2080\n2 free 0x2040\n2 free 0x2060\n\
logs 2\ncalls 6\ngiven 3\ntaken 3\nresized 0\nnomemory 0\ntoolarge 0\nbadalign 0\nskipped 0\nabsent 0\nleft 0\npages 1\n";

/// What `replay` answers and writes.
fn replayed_beside<R: Threads + Wait + Sync>(
    rt: &R,
    alloc: Global,
    input: &[u8],
) -> Result<(Status, BytesOut), Fail> {
    let mut words = Vec::new(alloc);
    words.push(String::from_str(alloc, "replay")?)?;
    words.push(String::from_str(alloc, "--calls")?)?;
    let mut source = BytesIn::new(input.to_vec(alloc)?, 4, Vec::new(alloc));
    let mut sink = BytesOut::new(alloc, 1000, Vec::new(alloc))?;
    let mapper = FirstFit::new(alloc, 4096, Vec::new(alloc))?;
    let policy = Policy::new(count, keep);
    let (status, mapper, closed) = replay(
        rt,
        alloc,
        words.as_slice(),
        &mut source,
        &mut sink,
        mapper,
        policy,
        &Open,
    );
    drop(mapper);
    drop(closed);
    Ok((status, sink))
}

#[test]
fn logs_that_hand_blocks_over(rt: HostRuntime) -> Result<(), Fail> {
    let cases: &[(&[u8], &[u8])] = &[
        (ONE_HAND_OFF, ONE_HANDED_OFF),
        (EACH_WAITS, EACH_WAITED),
        (ONE_NAME, FIRST_TO_FIRST),
    ];
    for &(input, report) in cases {
        let (status, sink) = replayed(rt.alloc(), &["serial", "--calls"], input, &[], &[])?;
        assert_eq!(rt; status, Status::Done);
        assert_eq!(rt; sink.bytes(), report);
        let (status, sink) = replayed_beside(&rt, rt.alloc(), input)?;
        assert_eq!(rt; status, Status::Done);
        assert_eq!(rt; sink.bytes(), report);
    }
    Ok(())
}
