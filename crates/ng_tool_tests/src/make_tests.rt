// What `make` writes.
use crate::calls::replayed;
use ng_words::Status;
use std::test::Fail;

// An independent model of the logs that are made of a number, and of the heap, gives these counts.
const REPORT_OF_1: &[u8] = b"logs 4\ncalls 8000\ngiven 5393\ntaken 2607\nresized 0\n\
nomemory 0\ntoolarge 0\nbadalign 0\nskipped 0\nabsent 0\nleft 2786\npages 429\n";

// It reads nothing of its input, whose first read would fail.
#[test]
fn makes_the_same_twice(rt: HostRuntime) -> Result<(), Fail> {
    for _ in 0..2 {
        let (status, sink) = replayed(rt.alloc(), &["make", "1"], b"= Start\n", &[1], &[])?;
        assert_eq!(rt; status, Status::Done);
        assert_eq!(rt; sink.bytes(), REPORT_OF_1);
    }
    Ok(())
}
