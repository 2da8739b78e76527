ghost use Rattle.std.specs.Prelude.{◌≡◌, ◌<◌, ◌≤◌, ◌+◌, ◌*◌, ◌↔◌, IsNone, IfSome, nat_lt};
ghost use Rattle.ng_class.specs.Class.{units_of, IsLeastClass};

/// The bytes of one unit. Addresses of blocks, and the sizes of slots, are multiples of it.
pub const UNIT: u64 = 16;

/// The bytes of a slot that its header cell takes.
pub const IB: u64 = 4;

/// The least number of bytes asked for that gets a mapping of its own in place of a slot.
pub const THRESHOLD: u64 = 131052;

/// The class of a group that is one block, mapped by itself.
pub const LONE: u32 = 63;

/// The units of the classes 0 to 47.
const UNITS: [u16; 48] = [
    1, 2, 3, 4, 5, 6, 7, 8, 9, 10, 12, 15, 18, 20, 25, 31, 36, 42, 50, 63, 72, 84, 102, 127, 146,
    170, 204, 255, 292, 340, 409, 511, 584, 682, 818, 1023, 1169, 1364, 1637, 2047, 2340, 2730,
    3276, 4095, 4680, 5460, 6552, 8191,
];

/// The size of the class, in units.
#[tactic(auto, unfolding(crate::specs::Class::unit_table))]
pub fn units(class: u32) -> u64
    requires { class < 48 }
    ensures value { result ≡ units_of class }
    ensures least { 1 ≤ result }
    ensures most { result ≤ 8191 }
{
    u64::from(UNITS[class as usize])
}

/// The least class whose slots hold `n` bytes beside their header cell. None from `THRESHOLD` on,
/// also for `THRESHOLD` itself, which a slot of the last class would hold.
pub fn class_of(n: u64) -> Option<u32>
    ensures none { IsNone result ↔ (THRESHOLD ≤ n) }
    ensures least { IfSome result (IsLeastClass n) }
{
    if n >= THRESHOLD {
        None
    } else {
        Some(least_class(n))
    }
}

// The place in the table of the first slot that is large enough.
fn least_class(n: u64) -> u32
    requires { n < THRESHOLD }
    ensures { IsLeastClass n result }
{
    let size = n + IB;
    let class = UNITS.partition_point(
        |units: &u16| -> bool
            ensures { result ≡ nat_lt (16 * units.now) size }
        { UNIT * u64::from(*units) < size },
    );
    class as u32
}
