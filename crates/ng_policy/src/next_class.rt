//! When a block goes to the next class.
ghost use Rattle.std.specs.Prelude.{◌≡◌, ◌≢◌, ◌+◌, ◌<◌, ◌^◌, ◌↔◌};
ghost use Rattle.ng_policy.specs.Coarse.{GoesUp};

/// The class that serves a block of this least class: the next, where no group of the class is live
/// and the next has few slots; else the class itself.
///
/// `has_group`: the ring of the class isn't empty. `usage` and `next_usage`: the slots of all live
/// groups of the class and of the next. `next_ready`: the first group in the ring of the next has a
/// free slot.
pub fn coarse(class: u32, has_group: bool, usage: u64, next_usage: u64, next_ready: bool) -> u32
    requires class { class < 48 }
    requires usage { usage < 2 ^ 32 }
    requires next_usage { next_usage < 2 ^ 32 }
    ensures up { (result ≡ class + 1) ↔ GoesUp class has_group usage next_usage next_ready }
    ensures stays { result ≢ class + 1 → result ≡ class }
    ensures known { result < 48 }
{
    let is_fine = class % 2 == 0 && (4..=30).contains(&class) && class != 6;
    let margin = if next_ready { 0 } else { 3 };
    if is_fine && !has_group && usage == 0 && next_usage + margin <= 12 {
        class + 1
    } else {
        class
    }
}
