// Which tuples of a stream are left, where these batches are recorded.
ghost use Rattle.std.specs.Prelude.{◌≡◌, ◌≤◌, ◌<◌, ℕ, List, length, IfSome, ◌/◌};
ghost use Rattle.std.specs.BTreeSet.{contains};
ghost use Rattle.std.specs.Ordering.{nat_cmp};
ghost use Rattle.sq_wanted.specs.Showing.{is_left};
ghost use Rattle.sq_wanted.specs.Places.{HoldRecord, Skips};

use sq_value::Tuple;
use std::collections::BTreeSet;

fn has_batch(batches: &BTreeSet<u64>, time: u64, length: u64) -> bool
    requires { 1 ≤ length }
    ensures { result ≡ contains nat_cmp batches.now (time / length) }
{
    let batch = time / length;
    batches.contains(&batch)
}

/// Whether a tuple lies in no batch that is recorded of the drop above.
fn is_left(sets: &[BTreeSet<u64>], above: Option<(u32, u64)>, x: &Tuple) -> bool
    requires { IfSome above (λ d. (d.0 < length sets.now) × (1 ≤ d.1)) }
    ensures { (record_at : ℕ → List ℕ) → HoldRecord sets.now record_at → result ≡ is_left record_at above x.now }
{
    match above {
        None => true,
        Some((w, length)) => !has_batch(&sets[w as usize], x.time, length),
    }
}

/// The first place from `from` on of a tuple that is left; behind the last tuple where there is none.
pub fn next_place(
    sets: &[BTreeSet<u64>],
    above: Option<(u32, u64)>,
    tuples: &[Tuple],
    from: usize,
) -> usize
    requires { IfSome above (λ d. (d.0 < length sets.now) × (1 ≤ d.1)) }
    ensures { (record_at : ℕ → List ℕ) → HoldRecord sets.now record_at → Skips (is_left record_at above) tuples.now from result }
{
    let mut at = from;
    while at < tuples.len() {
        if is_left(sets, above, &tuples[at]) {
            return at;
        }
        at += 1;
    }
    at
}
