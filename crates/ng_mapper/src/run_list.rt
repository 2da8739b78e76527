ghost use Rattle.std.specs.Prelude.{◌≡◌, ◌≢◌, ◌<◌, ◌≤◌, ◌↔◌, length, insert, vec_len, vec_capacity, sum_by, All, AllPairs, Contains, IfSome, IfNone, IsTrue};
ghost use Rattle.ng_mapper.specs.Holes.{whole};
ghost use Rattle.ng_mapper.specs.InOrder.{AreInOrder, EndsBefore, run_of};

/// An insert for which there is room.
pub fn insert_run(runs: &mut Vec<(u64, u64)>, next: usize, run: (u64, u64))
    requires inside { next ≤ vec_len runs.old }
    requires room { vec_len runs.old < vec_capacity runs.old }
    ensures items { runs.new.items ≡ insert runs.old.items next run }
    ensures room { vec_capacity runs.old ≤ vec_capacity runs.new }
{
    runs.insert(next, run).unwrap();
}

/// The index of the run that begins at an address.
pub fn run_index(runs: &[(u64, u64)], addr: u64) -> Option<usize>
    requires { AllPairs EndsBefore runs.now }
    ensures within { IfSome result (λ k. k < length runs.now) }
    ensures begins { IfSome result (λ k. (run_of runs.now k).0 ≡ addr) }
    ensures none { IfNone result (All (λ run. run.0 ≢ addr) runs.now) }
{
    runs.binary_search_by_key(&addr, |&(at, _)| at).ok()
}

/// Whether a number is in the list.
pub fn is_listed(numbers: &[u64], number: u64) -> bool
    ensures { IsTrue result ↔ Contains numbers.now number }
{
    numbers.contains(&number)
}

/// The pages of all runs.
pub fn page_sum(runs: &[(u64, u64)], size: u32) -> u64
    requires ordered { AreInOrder (whole size) runs.now }
    ensures { result ≡ sum_by (λ run. run.1) runs.now }
{
    let mut sum = 0;
    for run in runs {
        sum += run.1;
    }
    sum
}
