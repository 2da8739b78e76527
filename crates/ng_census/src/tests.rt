use crate::{CENSUS, render};
use ng_terms::{Items, Op, Origin, Plan};
use std::test::Fail;

// Two logs wait for each other, so the first ends a block that comes from nowhere, and hands one to the second.
#[test]
fn of_two_logs_that_wait(rt: HostRuntime) -> Result<(), Fail> {
    let alloc = rt.alloc();
    let first = [
        Op::Free {
            name: 0x20,
            from: Origin::Skip,
        },
        Op::Make {
            name: 0x10,
            size: 20,
            to: Some(1),
        },
    ];
    let second = [
        Op::Free {
            name: 0x10,
            from: Origin::Claim(1),
        },
        Op::Make {
            name: 0x20,
            size: 20,
            to: None,
        },
    ];
    let mut logs = Vec::new(alloc);
    logs.push(Items::from_vec(first.to_vec(alloc)?))?;
    logs.push(Items::from_vec(second.to_vec(alloc)?))?;
    let plan = Plan {
        logs: Items::from_vec(logs),
        order: Items::from_vec([0, 0, 1, 1].to_vec(alloc)?),
        receivers: Items::from_vec([1].to_vec(alloc)?),
    };
    let mut text = Vec::with_capacity(alloc, CENSUS)?;
    render(&plan, &mut text);
    assert_eq!(rt;
        text.as_slice(),
        b"logs 2\nmakes 2\nends 2\nmoves 0\nhanded 1\nskips 1\n".as_slice()
    );
    Ok(())
}
