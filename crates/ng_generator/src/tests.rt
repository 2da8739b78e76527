//! Made logs beside those of an independent model.
use super::*;
use ng_mtrace::{BytesIn, Line, read_logs};
use std::alloc::Global;
use std::process::Abort;
use std::test::Fail;

/// The first lines of the logs of seed 1.
const FIRST: &[u8] = b"\
= Start\n+ 0x10 0x359\n- 0x10\n+ 0x90 0x23d\n+ 0xd0 0x8e\n- 0xd0\n+ 0x150 0x128\n+ 0x190 0x9f\n+ 0x1d0 0xe9\n+ 0x210 0xf3\n- 0x1d0\n+ 0x290 0x3f3\n- 0x100\n= End\n\
= Start\n+ 0x20 0x35a\n+ 0x60 0xc\n- 0x90\n- 0x20\n- 0x60\n+ 0x160 0x177\n- 0x160\n+ 0x1e0 0x205\n+ 0x220 0x396\n- 0x210\n+ 0x2a0 0x7a\n+ 0x2e0 0x3b8\n= End\n\
= Start\n+ 0x30 0xf6\n+ 0x70 0xd4\n- 0x30\n+ 0xf0 0x31d\n+ 0x130 0x2a2\n- 0x70\n+ 0x1b0 0x1a2\n- 0x130\n- 0x220\n- 0xf0\n- 0x2a0\n- 0x1b0\n= End\n\
= Start\n+ 0x40 0x1fb\n+ 0x80 0x18d\n+ 0xc0 0x112\n+ 0x100 0x28a\n+ 0x140 0x37c\n- 0x80\n+ 0x1c0 0xac\n+ 0x200 0x312\n+ 0x240 0xe2\n+ 0x280 0x30e\n- 0x240\n+ 0x300 0x303\n= End\n";

/// The first lines of the logs of the greatest seed.
const LAST: &[u8] = b"\
= Start\n+ 0x10 0x2b7\n+ 0x50 0x15a\n+ 0x90 0xc5\n+ 0xd0 0x15a\n+ 0x110 0x179\n+ 0x150 0x10d\n+ 0x190 0x3a0\n- 0x190\n- 0x50\n- 0x240\n- 0x110\n- 0x90\n= End\n\
= Start\n+ 0x20 0x180\n+ 0x60 0x179\n+ 0xa0 0x3d6\n+ 0xe0 0x3af\n- 0x20\n+ 0x160 0x326\n- 0x160\n- 0x60\n- 0xa0\n+ 0x260 0x246\n+ 0x2a0 0x3f5\n- 0x260\n= End\n\
= Start\n+ 0x30 0x297\n+ 0x70 0x12\n+ 0xb0 0x38e\n+ 0xf0 0x158\n+ 0x130 0x14f\n+ 0x170 0xeb\n+ 0x1b0 0x36c\n- 0x130\n+ 0x230 0x13a\n- 0x170\n- 0xf0\n+ 0x2f0 0x2b8\n= End\n\
= Start\n+ 0x40 0xa3\n+ 0x80 0x1c1\n- 0x30\n+ 0x100 0x7b\n- 0xb0\n+ 0x180 0x10f\n+ 0x1c0 0x123\n+ 0x200 0x1fd\n+ 0x240 0xb7\n- 0x200\n+ 0x2c0 0x1cf\n+ 0x300 0x63\n= End\n";

/// A number of a digest and of what comes next.
fn mixed(digest: u64, next: u64) -> u64 {
    digest.wrapping_mul(31).wrapping_add(next)
}

/// A number of a digest and of a line's names and size.
fn with_line(digest: u64, line: &Line) -> u64 {
    match *line {
        Line::Make { name, size } => mixed(mixed(digest, name), size),
        Line::End { name } => mixed(digest, name),
        Line::Move { old, name, size } => mixed(mixed(mixed(digest, old), name), size),
    }
}

/// A number of a digest and of lines.
fn with_lines(digest: u64, lines: &[Line]) -> u64 {
    let mut digest = digest;
    for line in lines {
        digest = with_line(digest, line);
    }
    digest
}

/// The logs of a seed begin as a text's, and have this digest.
fn assert_made(
    rt: &impl Abort,
    alloc: Global,
    seed: u64,
    text: &[u8],
    digest: u64,
) -> Result<(), Fail> {
    let made = made_logs(alloc, seed)?.logs.into_vec();
    let bytes = Vec::from_slice(alloc, text)?;
    let mut input = BytesIn::new(bytes, 4096, Vec::new(alloc));
    let first = read_logs(alloc, &mut input)?.logs.into_vec();
    assert_eq!(rt; made.len(), 4);
    assert_eq!(rt; first.len(), 4);
    let mut found = 0;
    for (log, begun) in made.iter().zip(first.iter()) {
        let lines = log.lines.as_slice();
        assert_eq!(rt; lines.len(), 2000);
        assert_eq!(rt; &lines[..12], begun.lines.as_slice());
        found = with_lines(found, lines);
    }
    assert_eq!(rt; found, digest);
    Ok(())
}

#[test]
fn makes_the_logs_of_the_first_seed(rt: HostRuntime) -> Result<(), Fail> {
    assert_made(&rt, rt.alloc(), 1, FIRST, 0x0e46_dd6c_a7d1_9235)
}

#[test]
fn makes_the_logs_of_the_last_seed(rt: HostRuntime) -> Result<(), Fail> {
    assert_made(&rt, rt.alloc(), u64::MAX, LAST, 0x738e_cb96_f22a_abb1)
}
