// What `check` writes.
use crate::calls::replayed_into;
use ng_mtrace::BytesOut;
use ng_words::Status;
use std::test::Fail;

const EACH_WAITS: &[u8] =
    b"= Start\n- 0x20\n+ 0x10 0x14\n= End\n= Start\n- 0x10\n+ 0x20 0x14\n= End\n";

// The first log's end is skipped, and its block is handed to the second.
const CENSUS: &[u8] = b"logs 2\nmakes 2\nends 2\nmoves 0\nhanded 1\nskips 1\n";

#[test]
fn counts_without_a_heap(rt: HostRuntime) -> Result<(), Fail> {
    let sink = BytesOut::new(rt.alloc(), 1000, Vec::new(rt.alloc()))?;
    let (status, sink, closed) = replayed_into(rt.alloc(), &["check"], EACH_WAITS, &[], sink)?;
    assert_eq!(rt; status, Status::Done);
    assert_eq!(rt; sink.bytes(), CENSUS);
    assert_eq!(rt; closed.len(), 0);
    Ok(())
}
