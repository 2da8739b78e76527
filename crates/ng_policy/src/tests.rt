ghost use Rattle.std.specs.Prelude.{◌≡◌, IfSome, false};
ghost use Rattle.ng_policy.specs.Ask.{AskInRange, IsCount};

use super::*;
use std::sync::Mutex;

/// The ask for a class that isn't bouncing and has no neighbour.
fn ask_of(class: u32, usage: u64) -> Ask
    ensures { result ≡ record { class = class; usage = usage; near = 0; bouncing = false } }
{
    Ask {
        class,
        usage,
        near: 0,
        bouncing: false,
    }
}

#[test]
fn slots_of_each_class(rt: HostRuntime) {
    let usages = [0, 28, 60, 95, 96, 112, 127, 0x8000_0000];
    let rows = [
        (0, [30, 30, 30, 30, 30, 30, 30, 30]),
        (1, [15, 15, 15, 15, 15, 15, 31, 31]),
        (2, [10, 10, 10, 20, 20, 20, 20, 20]),
        (3, [7, 7, 15, 15, 15, 15, 31, 31]),
        (4, [6, 6, 12, 12, 12, 25, 25, 25]),
        (5, [5, 5, 10, 21, 21, 21, 21, 21]),
        (6, [4, 4, 8, 18, 18, 18, 18, 18]),
        (7, [7, 7, 15, 15, 15, 15, 31, 31]),
        (8, [6, 6, 14, 14, 14, 28, 28, 28]),
        (9, [3, 6, 12, 12, 24, 24, 24, 24]),
        (10, [5, 5, 10, 20, 20, 20, 20, 20]),
        (11, [2, 4, 8, 16, 16, 16, 16, 32]),
        (12, [7, 7, 14, 14, 14, 28, 28, 28]),
        (13, [3, 6, 12, 12, 24, 24, 24, 24]),
        (14, [5, 5, 10, 20, 20, 20, 20, 20]),
        (15, [2, 4, 8, 16, 16, 16, 16, 32]),
        (16, [7, 7, 14, 14, 14, 28, 28, 28]),
        (17, [3, 6, 12, 12, 24, 24, 24, 24]),
        (18, [5, 5, 10, 20, 20, 20, 20, 20]),
        (19, [2, 4, 8, 16, 16, 16, 16, 32]),
        (20, [7, 7, 14, 14, 14, 28, 28, 28]),
        (21, [3, 6, 12, 12, 24, 24, 24, 24]),
        (22, [5, 5, 10, 20, 20, 20, 20, 20]),
        (23, [2, 4, 8, 16, 16, 16, 16, 32]),
        (24, [5, 7, 14, 14, 14, 28, 28, 28]),
        (25, [3, 6, 12, 12, 24, 24, 24, 24]),
        (26, [5, 5, 10, 20, 20, 20, 20, 20]),
        (27, [1, 4, 8, 16, 16, 16, 16, 32]),
        (28, [5, 7, 14, 14, 14, 28, 28, 28]),
        (29, [3, 6, 12, 12, 24, 24, 24, 24]),
        (30, [3, 5, 10, 20, 20, 20, 20, 20]),
        (31, [1, 4, 8, 16, 16, 16, 16, 32]),
        (32, [3, 7, 14, 14, 14, 28, 28, 28]),
        (33, [3, 6, 12, 12, 24, 24, 24, 24]),
        (34, [3, 5, 10, 20, 20, 20, 20, 20]),
        (35, [1, 4, 8, 16, 16, 16, 16, 32]),
        (36, [3, 7, 14, 14, 14, 28, 28, 28]),
        (37, [2, 6, 12, 12, 24, 24, 24, 24]),
        (38, [3, 5, 10, 20, 20, 20, 20, 20]),
        (39, [1, 4, 8, 16, 16, 16, 16, 32]),
        (40, [3, 7, 14, 14, 14, 28, 28, 28]),
        (41, [2, 6, 12, 12, 24, 24, 24, 24]),
        (42, [3, 5, 10, 20, 20, 20, 20, 20]),
        (43, [1, 4, 8, 16, 16, 16, 16, 16]),
        (44, [3, 7, 14, 14, 14, 14, 14, 14]),
        (45, [2, 6, 12, 12, 12, 12, 12, 12]),
        (46, [3, 5, 10, 10, 10, 10, 10, 10]),
        (47, [1, 4, 8, 8, 8, 8, 8, 8]),
    ];
    for (class, slots) in rows {
        for (usage, slots) in usages.into_iter().zip(slots) {
            assert!(rt; class < 48 && usage < 1 << 32);
            let ask = ask_of(class, usage);
            assert_eq!(rt; musl_count(ask), slots, "at {class}, {usage}");
        }
    }
}

#[test]
fn slots_beside_neighbours_and_bounces(rt: HostRuntime) {
    let rows = [
        (24, 0, 19, false, 5),
        (24, 0, 20, false, 5),
        (24, 0, 0, true, 7),
        (36, 19, 8, false, 3),
        (36, 20, 8, false, 7),
        (37, 0, 11, false, 2),
        (37, 0, 12, false, 3),
        (37, 0, 0, true, 3),
        (30, 19, 0, false, 3),
        (30, 20, 0, false, 5),
        (30, 0, 0, true, 5),
        (23, 0, 0, true, 2),
        (27, 0, 0, true, 1),
        (47, 0xffff_ffff, 0xffff_ffff, true, 8),
    ];
    for (class, usage, near, bouncing, slots) in rows {
        assert!(rt; class < 48 && usage < 1 << 32 && near < 1 << 32);
        let ask = Ask {
            class,
            usage,
            near,
            bouncing,
        };
        assert_eq!(rt; musl_count(ask), slots, "at {ask:?}");
    }
}

#[test]
fn groups_worth_keeping(rt: HostRuntime) {
    let rows = [
        (8, 72, true, true, false),
        (8, 71, true, true, true),
        (19, 171, true, true, false),
        (20, 180, true, true, true),
        (8, 0, false, true, false),
        (8, 0, true, false, false),
        (1, 9, true, true, false),
        (1, 8, true, true, true),
    ];
    for (slots, usage, alone, bouncing, kept) in rows {
        let spare = Spare {
            class: 10,
            slots,
            usage,
            alone,
            bouncing,
        };
        assert_eq!(rt; musl_keep(spare), kept, "at {spare:?}");
        assert_eq!(rt; musl_policy_keeps(spare), kept, "at {spare:?}");
    }
}

#[test]
fn blocks_of_the_next_class(rt: HostRuntime) {
    let rows = [
        (4, false, 0, 12, true, 5),
        (4, false, 0, 13, true, 4),
        (4, false, 0, 9, false, 5),
        (4, false, 0, 10, false, 4),
        (2, false, 0, 0, true, 2),
        (5, false, 0, 0, true, 5),
        (6, false, 0, 0, true, 6),
        (8, false, 0, 0, true, 9),
        (8, true, 0, 0, true, 8),
        (8, false, 1, 0, true, 8),
        (30, false, 0, 0, false, 31),
        (31, false, 0, 0, true, 31),
        (32, false, 0, 0, true, 32),
        (47, false, 0, 0, true, 47),
    ];
    for (class, has_group, usage, next_usage, next_ready, serves) in rows {
        assert!(rt; class < 48 && usage < 1 << 32 && next_usage < 1 << 32);
        assert_eq!(rt;
            coarse(class, has_group, usage, next_usage, next_ready),
            serves,
            "at {class}, {has_group}, {usage}, {next_usage}, {next_ready}"
        );
    }
}

#[test]
fn bounces_of_300_turns(rt: HostRuntime) {
    // the class, the steps from each stamp to its account, the turn from which on it is bouncing, and
    // the decays after the last turn until it isn't
    let rows = [
        (7, 0, None, 0),
        (7, 1, Some(101), 51),
        (7, 2, Some(101), 51),
        (20, 5, Some(102), 51),
        (38, 9, Some(104), 51),
        (38, 10, None, 0),
        (6, 1, None, 0),
        (39, 1, None, 0),
    ];
    for (class, gap, first, decays) in rows {
        let mut bounce = Bounce::new();
        let mut bounced = None;
        for turn in 1..301u32 {
            bounce.stamp(class);
            for _ in 0..gap {
                bounce.step();
            }
            bounce.account(class);
            if bounced.is_none() && bounce.bouncing(class) {
                bounced = Some(turn);
            }
        }
        assert_eq!(rt; bounced, first, "at {class}, {gap}");
        let mut decayed = 0u32;
        for _ in 0..200u32 {
            if bounce.bouncing(class) {
                bounce.decay(class);
                decayed = decayed.saturating_add(1);
            }
        }
        assert_eq!(rt; decayed, decays, "at {class}, {gap}");
    }
}

/// The answer of rules behind a lock: the fact comes out of it with them.
fn locked_count<P: Rules + Drop>(rules: P, ask: Ask) -> Option<u32>
    requires good { P.good rules }
    requires ask { AskInRange ask }
    ensures { IfSome result (IsCount ask.class) }
{
    let shared = Mutex::new(Kept::new(rules));
    let count = shared.try_lock()?.count(ask);
    Some(count)
}

#[test]
fn stored_policies(rt: HostRuntime) {
    let ask = ask_of(11, 127);
    assert_eq!(rt; musl_policy_counts(ask), 16);
    assert_eq!(rt; capped_policy_counts(ask, 16), 16);
    assert_eq!(rt; capped_policy_counts(ask, 15), 15);
    assert_eq!(rt;
        locked_count(Policy::new(musl_count, musl_keep), ask),
        Some(16)
    );
}
