// How calls end that don't write all: by the words, by the input, or by a read or a write that fails.
use crate::calls::{replayed, replayed_into, replayed_over, replayed_small};
use crate::example::{LOG, REPORT};
use ng_mapper::FirstFit;
use ng_mtrace::{BytesIn, BytesOut, Source};
use ng_words::{Status, status_line};
use std::test::Fail;

const SERIAL: &[&str] = &["serial", "--calls", "--pages", "16"];

#[test]
fn words_outside_the_language(rt: HostRuntime) -> Result<(), Fail> {
    let (status, sink) = replayed(rt.alloc(), &["serial", "--call"], LOG, &[1], &[])?;
    assert_eq!(rt; status, Status::Usage);
    assert_eq!(rt; sink.bytes().len(), 0);
    Ok(())
}

#[test]
fn words_of_another_command(rt: HostRuntime) -> Result<(), Fail> {
    let (status, sink) = replayed(rt.alloc(), &["replay"], LOG, &[1], &[])?;
    assert_eq!(rt; status, Status::Usage);
    assert_eq!(rt; sink.bytes().len(), 0);
    Ok(())
}

#[test]
fn a_line_that_is_none(rt: HostRuntime) -> Result<(), Fail> {
    let (status, sink) = replayed(rt.alloc(), &["serial"], b"= Start\n+ 0x10\n", &[], &[])?;
    assert_eq!(rt; status, Status::BadLine(2));
    assert_eq!(rt; sink.bytes().len(), 0);
    let line = status_line(rt.alloc(), &status)?;
    assert_eq!(rt; line.as_str(), "mng: line 2: not a log line\n");
    Ok(())
}

#[test]
fn seventeen_sections(rt: HostRuntime) -> Result<(), Fail> {
    let mut input = Vec::new(rt.alloc());
    for _ in 0..17 {
        input.extend_from_slice(b"= Start\n")?;
    }
    let (status, sink) = replayed(rt.alloc(), &["serial"], input.as_slice(), &[], &[])?;
    assert_eq!(rt; status, Status::Limit(17));
    assert_eq!(rt; sink.bytes().len(), 0);
    let line = status_line(rt.alloc(), &status)?;
    assert_eq!(rt; line.as_str(), "mng: line 17: limit\n");
    Ok(())
}

#[test]
fn no_section(rt: HostRuntime) -> Result<(), Fail> {
    let (status, sink) = replayed(rt.alloc(), &["serial"], b"", &[], &[])?;
    assert_eq!(rt; status, Status::NoLog);
    assert_eq!(rt; sink.bytes().len(), 0);
    let line = status_line(rt.alloc(), &status)?;
    assert_eq!(rt; line.as_str(), "mng: no log\n");
    Ok(())
}

#[test]
fn a_sink_has_room_for_a_beginning(rt: HostRuntime) -> Result<(), Fail> {
    let sink = BytesOut::new(rt.alloc(), 27, Vec::new(rt.alloc()))?;
    let (status, sink, closed) = replayed_into(rt.alloc(), &["serial", "--calls"], LOG, &[], sink)?;
    assert_eq!(rt; status, Status::WriteFault);
    assert_eq!(rt; sink.bytes(), &REPORT[..27]);
    assert_eq!(rt; closed.len(), 1);
    let line = status_line(rt.alloc(), &status)?;
    assert_eq!(rt; line.as_str(), "mng: write fault\n");
    Ok(())
}

// Words outside the language leave the input unread.
#[test]
fn too_few_pages(rt: HostRuntime) -> Result<(), Fail> {
    let alloc = rt.alloc();
    let mut source = BytesIn::new(b"=".to_vec(alloc)?, 4, Vec::new(alloc));
    let mut sink = BytesOut::new(alloc, 1000, Vec::new(alloc))?;
    let mapper = FirstFit::new(alloc, 16, Vec::new(alloc))?;
    let words = ["serial", "--pages", "8"];
    let (status, closed) = replayed_over(alloc, &words, &mut source, &mut sink, mapper)?;
    assert_eq!(rt; status, Status::Usage);
    assert_eq!(rt; sink.bytes().len(), 0);
    assert_eq!(rt; closed.len(), 0);
    let mut buffer = [0u8; 4];
    assert_eq!(rt; source.read(&mut buffer), Ok(1));
    Ok(())
}

// A log begins with the first eight bytes of its line.
#[test]
fn each_beginning_of_a_log(rt: HostRuntime) -> Result<(), Fail> {
    for length in 0..LOG.len() + 1 {
        let mut sink = BytesOut::new(rt.alloc(), 1000, Vec::new(rt.alloc()))?;
        let words = ["serial", "--pages", "16"];
        let status = replayed_small(rt.alloc(), &words, &LOG[..length], &[], &mut sink)?;
        let wanted = if length < 8 {
            Status::NoLog
        } else {
            Status::Done
        };
        assert_eq!(rt; status, wanted, "{length} bytes");
    }
    Ok(())
}

// The 202 bytes come by 4 at a time, and a 52nd read tells the end. There is no 53rd.
#[test]
fn each_read_fails_in_turn(rt: HostRuntime) -> Result<(), Fail> {
    for read in 1..53u64 {
        let mut sink = BytesOut::new(rt.alloc(), 1000, Vec::new(rt.alloc()))?;
        let status = replayed_small(rt.alloc(), SERIAL, LOG, &[read], &mut sink)?;
        assert_eq!(rt; status, Status::ReadFault, "read {read}");
        assert_eq!(rt; sink.bytes().len(), 0);
    }
    let mut sink = BytesOut::new(rt.alloc(), 1000, Vec::new(rt.alloc()))?;
    let status = replayed_small(rt.alloc(), SERIAL, LOG, &[53], &mut sink)?;
    assert_eq!(rt; status, Status::Done);
    assert_eq!(rt; sink.bytes(), REPORT);
    Ok(())
}

#[test]
fn the_first_write_fails(rt: HostRuntime) -> Result<(), Fail> {
    let mut sink = BytesOut::new(rt.alloc(), 1000, [1].to_vec(rt.alloc())?)?;
    let status = replayed_small(rt.alloc(), SERIAL, LOG, &[], &mut sink)?;
    assert_eq!(rt; status, Status::WriteFault);
    assert_eq!(rt; sink.bytes().len(), 0);
    Ok(())
}

// The first write takes what there is room for, and the second fails.
#[test]
fn the_second_write_fails(rt: HostRuntime) -> Result<(), Fail> {
    for room in 1..REPORT.len() {
        let mut sink = BytesOut::new(rt.alloc(), room, Vec::new(rt.alloc()))?;
        let status = replayed_small(rt.alloc(), SERIAL, LOG, &[], &mut sink)?;
        assert_eq!(rt; status, Status::WriteFault, "room for {room} bytes");
        assert_eq!(rt; sink.bytes(), &REPORT[..room]);
    }
    Ok(())
}
