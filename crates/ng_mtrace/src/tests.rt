ghost use Rattle.std.specs.Prelude.{◌≤◌};

use super::*;
use std::alloc::{AllocError, Global};
use std::io::Cursor;
use std::test::Fail;

fn source(alloc: Global, text: &[u8], step: usize, failing: &[u64]) -> Result<BytesIn, AllocError>
    requires { 1 ≤ step }
{
    let bytes = Vec::from_slice(alloc, text)?;
    let failing = Vec::from_slice(alloc, failing)?;
    Ok(BytesIn::new(bytes, step, failing))
}

#[test]
fn a_failed_read_takes_nothing(rt: HostRuntime) -> Result<(), Fail> {
    let mut input = source(rt.alloc(), b"abcdef", 4, &[2])?;
    let mut piece = [0u8; 4];
    assert_eq!(rt; input.read(&mut piece), Ok(4));
    assert_eq!(rt; input.read(&mut piece), Err(Failed));
    assert_eq!(rt; input.read(&mut piece), Ok(2));
    assert_eq!(rt; &piece[..2], b"ef".as_slice());
    assert_eq!(rt; input.read(&mut piece), Ok(0));
    Ok(())
}

#[test]
fn a_reader_gives_its_bytes(rt: HostRuntime) -> Result<(), Fail> {
    let mut input = Input::new(b"abc".as_slice());
    let mut piece = [0u8; 4];
    assert_eq!(rt; input.read(&mut piece), Ok(3));
    assert_eq!(rt; &piece[..3], b"abc".as_slice());
    assert_eq!(rt; input.read(&mut piece), Ok(0));
    Ok(())
}

#[test]
fn writes_all_or_a_beginning(rt: HostRuntime) -> Result<(), Fail> {
    // The room, the calls that fail, whether all was written, and what was.
    let rows: [(usize, &[u64], bool, &[u8]); 4] = [
        (6, &[], true, b"abcdef"),
        (8, &[2], true, b"abcdef"),
        (4, &[], false, b"abcd"),
        (6, &[1], false, b""),
    ];
    for (room, failing, all, written) in rows {
        let failing = Vec::from_slice(rt.alloc(), failing)?;
        let mut out = BytesOut::new(rt.alloc(), room, failing)?;
        assert_eq!(rt; write_all(&mut out, b"abcdef").is_ok(), all);
        assert_eq!(rt; out.bytes(), written);
    }
    Ok(())
}

#[test]
fn a_full_writer_fails(rt: HostRuntime) -> Result<(), Fail> {
    let mut held = [0u8; 4];
    let mut out = Output::new(Cursor::new(held.as_mut_slice()));
    assert_eq!(rt; write_all(&mut out, b"ab"), Ok(()));
    assert_eq!(rt; write_all(&mut out, b"cdef"), Err(Failed));
    Ok(())
}
