ghost use Rattle.std.specs.Prelude.{◌≤◌};

use super::*;
use ng_mtrace::BytesIn;
use std::alloc::{AllocError, Global};
use std::process::Abort;
use std::test::Fail;

fn source(alloc: Global, text: &[u8], step: usize, failing: &[u64]) -> Result<BytesIn, AllocError>
    requires { 1 ≤ step }
{
    let bytes = Vec::from_slice(alloc, text)?;
    let failing = Vec::from_slice(alloc, failing)?;
    Ok(BytesIn::new(bytes, step, failing))
}

/// The fault of a text that is read in pieces of `step` bytes.
fn fault_of(alloc: Global, text: &[u8], step: usize) -> Result<Option<ScriptFault>, AllocError>
    requires { 1 ≤ step }
{
    let mut input = source(alloc, text, step, &[])?;
    match read_script(alloc, &mut input) {
        Ok(_) => Ok(None),
        Err(fault) => Ok(Some(fault)),
    }
}

/// The commands of a text, and how many names it has, however it is cut.
fn assert_script(
    rt: &impl Abort,
    alloc: Global,
    text: &[u8],
    want: &[Command],
    names: u32,
) -> Result<(), Fail> {
    for step in [1, 5, 4096] {
        let mut input = source(alloc, text, step, &[])?;
        let script = read_script(alloc, &mut input)?;
        assert_eq!(rt; script.commands.as_slice(), want);
        assert_eq!(rt; script.names, names);
    }
    Ok(())
}

fn malloc(name: u32, size: u64) -> Command {
    Command::Malloc { name, size }
}

fn free(name: u32, shift: Shift) -> Command {
    let place = Place::Named { name, shift };
    Command::Free { place }
}

fn free_at(address: u64) -> Command {
    let place = Place::At(address);
    Command::Free { place }
}

fn write(name: u32, offset: u64, byte: u8) -> Command {
    Command::Write { name, offset, byte }
}

fn usable(name: u32) -> Command {
    Command::Usable { name }
}

#[test]
fn reads_each_form(rt: HostRuntime) -> Result<(), Fail> {
    let rows: [(&[u8], &[Command], u32); 8] = [
        (b"m b 16\n", &[malloc(0, 16)], 1),
        (b"f 0x10\nf 10\n", &[free_at(16), free_at(10)], 0),
        (
            b"m b 0\nf b\nf b+16\nf b-0x10\n",
            &[
                malloc(0, 0),
                free(0, Shift::Up(0)),
                free(0, Shift::Up(16)),
                free(0, Shift::Down(16)),
            ],
            1,
        ),
        (
            b"m b 8\nw b 255\nw b+3 0x0\nu b\n",
            &[malloc(0, 8), write(0, 0, 255), write(0, 3, 0), usable(0)],
            1,
        ),
        // A name keeps its number when it is given again.
        (
            b"m b 1\nm a 2\nm b 3\nu a\n",
            &[malloc(0, 1), malloc(1, 2), malloc(0, 3), usable(1)],
            2,
        ),
        (
            b"\t m\tabcdefghijklmnop  0xFfFfFfFfFfFfFfFf \n",
            &[malloc(0, u64::MAX)],
            1,
        ),
        (
            b"m a 18446744073709551615\n\n \t\nf 00\n",
            &[malloc(0, u64::MAX), free_at(0)],
            1,
        ),
        (b"", &[], 0),
    ];
    for (text, want, names) in rows {
        assert_script(&rt, rt.alloc(), text, want, names)?;
    }
    Ok(())
}

#[test]
fn passes_over_a_cut_last_line(rt: HostRuntime) -> Result<(), Fail> {
    assert_script(&rt, rt.alloc(), b"m b 1\nf b", &[malloc(0, 1)], 1)?;
    assert_script(&rt, rt.alloc(), b"m b 1\nx", &[malloc(0, 1)], 1)?;
    assert_script(&rt, rt.alloc(), b"m b 1", &[], 0)
}

/// Lines in none of the forms, or with a name that no line has made known, where `b` is known.
const BAD: &str = "\
x\n\
m\n\
m c\n\
m c 1 2\n\
m C 1\n\
m c1 1\n\
m abcdefghijklmnopq 1\n\
m c 18446744073709551616\n\
m c 0x\n\
m c 0X10\n\
m c 0x1g\n\
m c 1a\n\
m c -1\n\
m c +1\n\
m c 1\r\n\
mm c 1\n\
f\n\
f c\n\
f B\n\
f b b\n\
f b+\n\
f b+b\n\
f b+1+1\n\
f b+1-1\n\
f +1\n\
f b*1\n\
f b + 1\n\
f 0x10000000000000000\n\
w b\n\
w b 256\n\
w b-1 0\n\
w 16 0\n\
w c 0\n\
w b b\n\
w b 1 1\n\
w b+1 0 0\n\
u\n\
u c\n\
u b+1\n\
u 16\n\
u b 1";

#[test]
fn finds_the_first_bad_line(rt: HostRuntime) -> Result<(), Fail> {
    for line in BAD.split('\n') {
        let text = format!(in rt.alloc(); "m b 16\n\n{line}\nx\nm c 1\n")?;
        for step in [1, 4096] {
            let found = fault_of(rt.alloc(), text.as_bytes(), step)?;
            assert_eq!(rt; found, Some(ScriptFault::BadLine(3)), "{line}");
        }
    }
    Ok(())
}

#[test]
fn a_line_has_at_most_4096_bytes(rt: HostRuntime) -> Result<(), Fail> {
    // What stands before the bytes, how many there are, what stands behind them, and the fault.
    let rows: [(&[u8], usize, &[u8], Option<ScriptFault>); 5] = [
        (b"m b 1\n", 4093, b"u b\n", None),
        (b"m b 1\n", 4094, b"u b\n", Some(ScriptFault::Limit(2))),
        (b"x", 4096, b"\n", Some(ScriptFault::Limit(1))),
        (b"", 4096, b"", None),
        (b"", 4097, b"", Some(ScriptFault::Limit(1))),
    ];
    for (before, count, behind, want) in rows {
        let mut text = Vec::from_slice(rt.alloc(), before)?;
        text.resize(text.len() + count, b' ')?;
        text.extend_from_slice(behind)?;
        for step in [1000, 8192] {
            assert_eq!(rt; fault_of(rt.alloc(), text.as_slice(), step)?, want);
        }
    }
    Ok(())
}

#[test]
fn a_script_has_at_most_a_million_lines(rt: HostRuntime) -> Result<(), Fail> {
    let mut text = vec![in rt.alloc(); b'\n'; 1_000_000]?;
    assert_eq!(rt; fault_of(rt.alloc(), text.as_slice(), 65536)?, None);
    text.push(b'x')?;
    let found = fault_of(rt.alloc(), text.as_slice(), 65536)?;
    assert_eq!(rt; found, Some(ScriptFault::Limit(1_000_001)));
    Ok(())
}

#[test]
fn the_first_of_a_fault_and_a_failed_read_decides(rt: HostRuntime) -> Result<(), Fail> {
    // The line feed of line 2 comes with the third read.
    let text = b"m b 1\nf c\nm d 1\nu d\n";
    let rows = [
        (1, ScriptFault::Read),
        (3, ScriptFault::Read),
        (4, ScriptFault::BadLine(2)),
    ];
    for (call, want) in rows {
        let mut input = source(rt.alloc(), text, 4, &[call])?;
        assert_eq!(rt; read_script(rt.alloc(), &mut input).err(), Some(want));
    }
    Ok(())
}

#[test]
fn reads_numbers(rt: HostRuntime) -> Result<(), Fail> {
    let rows: [(&[u8], Option<u64>); 8] = [
        (b"0", Some(0)),
        (b"007", Some(7)),
        (b"0xAbC", Some(0xabc)),
        (b"0x0000000000000000000ff", Some(255)),
        (b"18446744073709551615", Some(u64::MAX)),
        (b"18446744073709551616", None),
        (b"99999999999999999999999", None),
        (b"", None),
    ];
    for (text, want) in rows {
        assert_eq!(rt; number(text), want);
    }
    Ok(())
}
