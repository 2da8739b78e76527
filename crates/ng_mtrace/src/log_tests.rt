ghost use Rattle.std.specs.Prelude.{◌≤◌};

use super::*;
use std::alloc::{AllocError, Global};
use std::process::Abort;
use std::test::Fail;

fn source(alloc: Global, text: &[u8], step: usize, failing: &[u64]) -> Result<BytesIn, AllocError>
    requires { 1 ≤ step }
{
    let bytes = Vec::from_slice(alloc, text)?;
    let failing = Vec::from_slice(alloc, failing)?;
    Ok(BytesIn::new(bytes, step, failing))
}

/// The fault of a text that is read in pieces of `step` bytes.
fn fault_of(alloc: Global, text: &[u8], step: usize) -> Result<Option<LogFault>, AllocError>
    requires { 1 ≤ step }
{
    let mut input = source(alloc, text, step, &[])?;
    match read_logs(alloc, &mut input) {
        Ok(_) => Ok(None),
        Err(fault) => Ok(Some(fault)),
    }
}

fn make(name: u64, size: u64) -> Line {
    Line::Make { name, size }
}

fn end(name: u64) -> Line {
    Line::End { name }
}

fn moved(old: u64, name: u64, size: u64) -> Line {
    Line::Move { old, name, size }
}

/// The lines of a text of one section, however it is cut.
fn assert_lines(rt: &impl Abort, alloc: Global, text: &[u8], want: &[Line]) -> Result<(), Fail> {
    for step in [1, 5, 4096] {
        let mut input = source(alloc, text, step, &[])?;
        let logs = read_logs(alloc, &mut input)?.logs.into_vec();
        assert_eq!(rt; logs.len(), 1);
        assert_eq!(rt; logs[0].lines.as_slice(), want);
    }
    Ok(())
}

#[test]
fn reads_each_form(rt: HostRuntime) -> Result<(), Fail> {
    let all = 0xabcd_ef01_2345_6789;
    let rows: [(&[u8], &[Line]); 8] = [
        (
            b"= Start\n+ 0x10 0x14\n- 0x10\n< 0x10\n> 0x20 0x8\n! 0x30 0x8\n= End\n",
            &[make(16, 20), end(16), moved(16, 32, 8)],
        ),
        // Any tokens may stand before a form, and the shorter forms come first.
        (
            b"= Start\n@ ./a:[0x1] + 0x10 0x14\n@ ./a:(f+0x2)[0x3] - 0x10\n+ - 0x20\n",
            &[make(16, 20), end(16), end(32)],
        ),
        (
            b" =\tStart \n\t+\t0x10 \t 0x14\t\n - 0x10 \n",
            &[make(16, 20), end(16)],
        ),
        (
            b"= Start\n+ 0xaBcDeF0123456789 0xFFFFFFFFFFFFFFFF\n+ 0x1 0x0\n+ 0x2 0\n",
            &[make(all, u64::MAX), make(1, 0), make(2, 0)],
        ),
        // Each pointer of value 0 is `(nil)`.
        (b"= Start\n+ (nil) 0x8\n- 0x0\n- (nil)\n+ 0x000 0x8\n", &[]),
        (
            b"= Start\n< (nil)\n> 0x20 0x8\n< 0x20\n> (nil) 0\n< 0x00\n> 0x30 0\n< 0x0\n> 0x0 0x8\n",
            &[make(32, 8), make(48, 0)],
        ),
        // Only the very next line joins a `<` line.
        (
            b"= Start\n< 0x1\n\n> 0x2 0x8\n< 0x1\n! 0x1 0x8\n> 0x2 0x8\n< 0x1\n+ (nil) 0\n> 0x2 0x8\n",
            &[],
        ),
        (
            b"= Start\n> 0x2 0x8\n< 0x1\n< 0x3\n> 0x4 0x8\n> 0x5 0x8\n< 0x6\n",
            &[moved(3, 4, 8)],
        ),
    ];
    for (text, want) in rows {
        assert_lines(&rt, rt.alloc(), text, want)?;
    }
    Ok(())
}

#[test]
fn a_section_ends_at_the_next_mark(rt: HostRuntime) -> Result<(), Fail> {
    let text =
        b"x\n- 0x1\n= End\n= Start\n- 0x2\n< 0x3\n= Start\n> 0x4 0x8\n= End\n- 0x5\nx\n= Start\n- 0x6\n= St";
    let want: [&[Line]; 3] = [&[end(2)], &[], &[end(6)]];
    for step in [1, 5, 4096] {
        let mut input = source(rt.alloc(), text, step, &[])?;
        let logs = read_logs(rt.alloc(), &mut input)?.logs.into_vec();
        assert_eq!(rt; logs.len(), 3);
        for (log, lines) in logs.iter().zip(want) {
            assert_eq!(rt; log.lines.as_slice(), lines);
        }
    }
    Ok(())
}

#[test]
fn passes_over_a_cut_last_line(rt: HostRuntime) -> Result<(), Fail> {
    assert_lines(&rt, rt.alloc(), b"= Start\n- 0x1\n- 0x2", &[end(1)])?;
    assert_lines(&rt, rt.alloc(), b"= Start\n- 0x1\nx", &[end(1)])?;
    assert_lines(&rt, rt.alloc(), b"= Start\n< 0x1\n> 0x2 0x8", &[])
}

/// Lines in none of the forms.
const BAD: &str = "\
x\n\
-\n\
-0x10\n\
- 10\n\
- 0x\n\
- 0X10\n\
- 0x1g\n\
- (nil\n\
- 0x00000000000000001\n\
- 0x10 0x8\n\
- 0x10\r\n\
< 0x10 0x8\n\
+ 0x10\n\
+ 0x10 8\n\
+ 0x10 (nil)\n\
+ 0 0x8\n\
> 0x10\n\
! 0x10\n\
= end\n\
= Start x\n\
x = Start\n\
=Start";

#[test]
fn finds_the_first_bad_line(rt: HostRuntime) -> Result<(), Fail> {
    for line in BAD.split('\n') {
        let text = format!(in rt.alloc(); "x\n= Start\n\n- 0x1\n{line}\nx\n= End\n")?;
        for step in [1, 4096] {
            let found = fault_of(rt.alloc(), text.as_bytes(), step)?;
            assert_eq!(rt; found, Some(LogFault::BadLine(5)), "{line}");
        }
    }
    Ok(())
}

#[test]
fn tells_a_text_without_a_section(rt: HostRuntime) -> Result<(), Fail> {
    let rows: [&[u8]; 4] = [b"", b"x\n- 0x1\n= End\n", b"= Start", b"= Start x\n"];
    for text in rows {
        assert_eq!(rt; fault_of(rt.alloc(), text, 4)?, Some(LogFault::NoLog));
    }
    Ok(())
}

/// Sixteen sections, and then these bytes.
fn sixteen(alloc: Global, last: &[u8]) -> Result<Vec<u8>, AllocError> {
    let mut text = Vec::new(alloc);
    for _ in 0..16 {
        text.extend_from_slice(b"= Start\n= End\n")?;
    }
    text.extend_from_slice(last)?;
    Ok(text)
}

#[test]
fn an_input_has_at_most_sixteen_sections(rt: HostRuntime) -> Result<(), Fail> {
    let rows: [(&[u8], Option<LogFault>); 4] = [
        (b"x\n", None),
        (b"= Start", None),
        (b"= Start\n", Some(LogFault::Limit(33))),
        (b"x\n= Start\nx\n", Some(LogFault::Limit(34))),
    ];
    for (last, want) in rows {
        let text = sixteen(rt.alloc(), last)?;
        assert_eq!(rt; fault_of(rt.alloc(), text.as_slice(), 7)?, want);
    }
    Ok(())
}

#[test]
fn a_line_has_at_most_4096_bytes(rt: HostRuntime) -> Result<(), Fail> {
    // What stands before the bytes, how many there are, what stands behind them, and the fault.
    let rows: [(&[u8], usize, &[u8], Option<LogFault>); 6] = [
        (b"= Start\n", 4089, b" - 0x10\n", None),
        (b"= Start\n", 4090, b" - 0x10\n", Some(LogFault::Limit(2))),
        (b"= Start\n", 4097, b"\n", Some(LogFault::Limit(2))),
        (b"= Start\n= End\n", 4096, b"", None),
        (b"= Start\n= End\n", 4097, b"", Some(LogFault::Limit(3))),
        (b"", 4097, b"", Some(LogFault::Limit(1))),
    ];
    for (before, count, behind, want) in rows {
        let mut text = Vec::from_slice(rt.alloc(), before)?;
        text.resize(text.len() + count, b'x')?;
        text.extend_from_slice(behind)?;
        for step in [1000, 8192] {
            assert_eq!(rt; fault_of(rt.alloc(), text.as_slice(), step)?, want);
        }
    }
    Ok(())
}

#[test]
fn an_input_has_at_most_a_million_lines(rt: HostRuntime) -> Result<(), Fail> {
    let mut text = vec![in rt.alloc(); b'\n'; 1_000_000]?;
    assert_eq!(rt;
        fault_of(rt.alloc(), text.as_slice(), 65536)?,
        Some(LogFault::NoLog)
    );
    text.push(b'\n')?;
    let found = fault_of(rt.alloc(), text.as_slice(), 65536)?;
    assert_eq!(rt; found, Some(LogFault::Limit(1_000_001)));
    Ok(())
}

#[test]
fn the_first_of_a_fault_and_a_failed_read_decides(rt: HostRuntime) -> Result<(), Fail> {
    // The line feed of line 3 comes with the fifth read.
    let text = b"= Start\n- 0x10\nx\n- 0x10\n";
    let rows = [
        (1, LogFault::Read),
        (2, LogFault::Read),
        (5, LogFault::Read),
        (6, LogFault::BadLine(3)),
    ];
    for (call, want) in rows {
        let mut input = source(rt.alloc(), text, 4, &[call])?;
        assert_eq!(rt; read_logs(rt.alloc(), &mut input).err(), Some(want));
    }
    Ok(())
}
