ghost use Rattle.std.specs.Prelude.{◌≡◌, ◌≤◌, ◌∷◌, [], length};
ghost use Rattle.ng_report.specs.Room.{HasReplies};
ghost use Rattle.ng_terms.specs.Calls.{op_count};

use crate::{render, report_room};
use ng_terms::{Items, Made, Mode, Op, Origin, Plan, Reply};
use std::alloc::{AllocError, Global};
use std::test::Fail;

const PLAIN: Mode = Mode {
    align: None,
    zero: false,
};

const ZEROED: Mode = Mode {
    align: None,
    zero: true,
};

fn aligned(align: u64) -> Mode {
    Mode {
        align: Some(align),
        zero: false,
    }
}

fn make(name: u64, size: u64) -> Op {
    Op::Make {
        name,
        size,
        to: None,
    }
}

fn free(name: u64) -> Op {
    Op::Free {
        name,
        from: Origin::Skip,
    }
}

fn moved(old: u64, name: u64, size: u64) -> Op {
    Op::Move {
        old,
        name,
        from: Origin::Own(0),
        size,
        to: None,
    }
}

fn plan_of(alloc: Global, logs: Vec<Items<Op>>) -> Plan
    ensures { result.logs ≡ logs.items }
{
    Plan {
        logs: Items::from_vec(logs),
        order: Items::new(alloc),
        receivers: Items::new(alloc),
    }
}

fn report_of(
    alloc: Global,
    plan: &Plan,
    mode: Mode,
    calls_shown: bool,
    replies: &[Items<Reply>],
    pages: u64,
) -> Result<Vec<u8>, AllocError>
    requires answered { HasReplies plan.now.logs replies.now }
    requires few { op_count plan.now.logs ≤ 1000 }
{
    let mut text = Vec::with_capacity(alloc, report_room(plan, calls_shown))?;
    render(plan, mode, calls_shown, replies, pages, &mut text);
    Ok(text)
}

fn of_one_log(
    alloc: Global,
    mode: Mode,
    calls_shown: bool,
    ops: &[Op],
    replies: &[Reply],
    pages: u64,
) -> Result<Vec<u8>, AllocError>
    requires answered { length replies.now ≡ length ops.now }
    requires few { length ops.now ≤ 1000 }
{
    let mut logs = Vec::new(alloc);
    logs.push(Items::from_vec(Vec::from_slice(alloc, ops)?))?;
    let mut answers = Vec::new(alloc);
    answers.push(Items::from_vec(Vec::from_slice(alloc, replies)?))?;
    let plan = plan_of(alloc, logs);
    report_of(alloc, &plan, mode, calls_shown, answers.as_slice(), pages)
}

#[test]
fn shows_calls_and_counts(rt: HostRuntime) -> Result<(), Fail> {
    let ops = [make(0x10, 0x14), make(0x20, 0x20000), free(0x10)];
    let replies = [
        Reply::Given { at: 0x1010 },
        Reply::Given { at: 0x2010 },
        Reply::Freed { at: 0x1010 },
    ];
    let text = of_one_log(rt.alloc(), PLAIN, true, &ops, &replies, 33)?;
    assert_eq!(rt;
        text.as_slice(),
        b"1 malloc 0x14 0x1010\n1 malloc 0x20000 0x2010\n1 free 0x1010\n\
logs 1\ncalls 3\ngiven 2\ntaken 1\nresized 0\nnomemory 0\ntoolarge 0\nbadalign 0\nskipped 0\nabsent 0\nleft 1\npages 33\n"
            .as_slice()
    );
    Ok(())
}

#[test]
fn numbers_logs_from_one(rt: HostRuntime) -> Result<(), Fail> {
    let alloc = rt.alloc();
    let mut logs = Vec::new(alloc);
    logs.push(Items::from_vec(Vec::from_slice(alloc, &[free(0x20), make(0x10, 0x14)])?))?;
    logs.push(Items::from_vec(Vec::from_slice(alloc, &[free(0x10), make(0x20, 0x14)])?))?;
    let given = Reply::Given { at: 0x2040 };
    let mut replies = Vec::new(alloc);
    replies.push(Items::from_vec(Vec::from_slice(alloc, &[Reply::Skipped, given])?))?;
    replies.push(Items::from_vec(Vec::from_slice(alloc, &[Reply::Freed { at: 0x2040 }, given])?))?;
    let plan = plan_of(alloc, logs);
    let text = report_of(alloc, &plan, PLAIN, true, replies.as_slice(), 2)?;
    assert_eq!(rt;
        text.as_slice(),
        b"1 skip 0x20\n1 malloc 0x14 0x2040\n2 free 0x2040\n2 malloc 0x14 0x2040\n\
logs 2\ncalls 3\ngiven 2\ntaken 1\nresized 0\nnomemory 0\ntoolarge 0\nbadalign 0\nskipped 1\nabsent 0\nleft 1\npages 2\n"
            .as_slice()
    );
    Ok(())
}

#[test]
fn tells_a_resize_from_a_move(rt: HostRuntime) -> Result<(), Fail> {
    let ops = [
        make(0xa, 0x14),
        moved(0xa, 0xb, 0x1c),
        moved(0xb, 0xc, 0x1d),
    ];
    let replies = [
        Reply::Given { at: 0x2040 },
        Reply::Moved {
            old: 0x2040,
            at: 0x2040,
        },
        Reply::Moved {
            old: 0x2040,
            at: 0x2230,
        },
    ];
    let text = of_one_log(rt.alloc(), PLAIN, true, &ops, &replies, 2)?;
    assert_eq!(rt;
        text.as_slice(),
        b"1 malloc 0x14 0x2040\n1 realloc 0x2040 0x1c 0x2040\n1 realloc 0x2040 0x1d 0x2230\n\
logs 1\ncalls 3\ngiven 2\ntaken 1\nresized 1\nnomemory 0\ntoolarge 0\nbadalign 0\nskipped 0\nabsent 0\nleft 1\npages 2\n"
            .as_slice()
    );
    Ok(())
}

const MIXED: &[u8] =
    b"logs 1\ncalls 8\ngiven 2\ntaken 0\nresized 0\nnomemory 3\ntoolarge 3\nbadalign 0\nskipped 3\nabsent 2\nleft 2\npages 7\n";

fn mixed_ops() -> [Op; 10]
    ensures { length result ≡ 10 }
{
    [
        make(0xa, 0x14),
        moved(0xa, 0xb, 0x28),
        moved(0xa, 0xb, 0x7fff_ffff_ffff_efff),
        moved(0xb, 0xc, 0x30),
        moved(0xc, 0xd, 0x40),
        moved(0xd, 0xe, 0x7fff_ffff_ffff_efff),
        free(0xe),
        free(0xf),
        make(0x10, 0x7fff_ffff_ffff_f000),
        make(0x11, 0x20),
    ]
}

fn mixed_replies() -> [Reply; 10]
    ensures { length result ≡ 10 }
{
    [
        Reply::Given { at: 0x1010 },
        Reply::NoMemory {
            old: Some(0x1010),
            excuse: 2,
        },
        Reply::TooLarge { old: Some(0x1010) },
        Reply::Fresh {
            skipped: true,
            made: Made::Given { at: 0x1030 },
        },
        Reply::Fresh {
            skipped: false,
            made: Made::NoMemory { excuse: 3 },
        },
        Reply::Fresh {
            skipped: true,
            made: Made::TooLarge,
        },
        Reply::Skipped,
        Reply::Absent,
        Reply::TooLarge { old: None },
        Reply::NoMemory {
            old: None,
            excuse: u64::MAX,
        },
    ]
}

#[test]
fn shows_each_refusal(rt: HostRuntime) -> Result<(), Fail> {
    let text = of_one_log(rt.alloc(), ZEROED, true, &mixed_ops(), &mixed_replies(), 7)?;
    let lines =
        b"1 calloc 0x14 0x1010\n1 realloc 0x1010 0x28 NoMemory 2\n1 realloc 0x1010 0x7fffffffffffefff TooLarge\n\
1 skip 0xb\n1 calloc 0x30 0x1030\n1 none 0xc\n1 calloc 0x40 NoMemory 3\n1 skip 0xd\n1 calloc 0x7fffffffffffefff TooLarge\n\
1 skip 0xe\n1 none 0xf\n1 calloc 0x7ffffffffffff000 TooLarge\n1 calloc 0x20 NoMemory 18446744073709551615\n"
            .as_slice();
    assert_eq!(rt; text.strip_prefix(lines), Some(MIXED));
    Ok(())
}

#[test]
fn leaves_calls_out(rt: HostRuntime) -> Result<(), Fail> {
    let text = of_one_log(rt.alloc(), ZEROED, false, &mixed_ops(), &mixed_replies(), 7)?;
    assert_eq!(rt; text.as_slice(), MIXED);
    Ok(())
}

#[test]
fn shows_modes_and_sizes(rt: HostRuntime) -> Result<(), Fail> {
    let given = Reply::Given { at: 0x2040 };
    let cases = [
        (PLAIN, 0, given, "1 malloc 0x0 0x2040\n"),
        (
            PLAIN,
            u64::MAX,
            Reply::TooLarge { old: None },
            "1 malloc 0xffffffffffffffff TooLarge\n",
        ),
        (
            PLAIN,
            0x14,
            Reply::NoMemory {
                old: None,
                excuse: 1,
            },
            "1 malloc 0x14 NoMemory 1\n",
        ),
        (
            aligned(0x20_0000),
            0x64,
            Reply::Given { at: 0x20_0000 },
            "1 aligned 0x200000 0x64 0x200000\n",
        ),
        (
            aligned(24),
            0x64,
            Reply::BadAlign,
            "1 aligned 0x18 0x64 BadAlign\n",
        ),
        (aligned(0), 0x64, given, "1 aligned 0x0 0x64 0x2040\n"),
    ];
    for (mode, size, reply, line) in cases {
        let text = of_one_log(rt.alloc(), mode, true, &[make(0x10, size)], &[reply], 2)?;
        assert!(rt; text.starts_with(line.as_bytes()), "{line}");
    }
    Ok(())
}

#[test]
fn counts_refused_alignments(rt: HostRuntime) -> Result<(), Fail> {
    let ops = [make(0x10, 0x64), moved(0xa, 0xb, 0x64), free(0xb)];
    let replies = [
        Reply::BadAlign,
        Reply::Fresh {
            skipped: false,
            made: Made::BadAlign,
        },
        Reply::Absent,
    ];
    let text = of_one_log(rt.alloc(), aligned(24), true, &ops, &replies, 0)?;
    assert_eq!(rt;
        text.as_slice(),
        b"1 aligned 0x18 0x64 BadAlign\n1 none 0xa\n1 aligned 0x18 0x64 BadAlign\n1 none 0xb\n\
logs 1\ncalls 2\ngiven 0\ntaken 0\nresized 0\nnomemory 0\ntoolarge 0\nbadalign 2\nskipped 0\nabsent 2\nleft 0\npages 0\n"
            .as_slice()
    );
    Ok(())
}
