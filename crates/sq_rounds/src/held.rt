//! The first tuples of a list.

ghost use Rattle.std.specs.Prelude.{◌≡◌, ◌++◌, is_some};
ghost use Rattle.std.specs.Option.{option_to_list};
ghost use Rattle.sq_lists.specs.Sides.{begins_past};
ghost use Rattle.sq_rounds.specs.Rounds.{first_time_from};

use sq_value::Tuple;
use std::collections::VecDeque;

/// Takes the first tuple out, if it is more than `size` ticks before a time.
pub fn pop_past(tuples: &mut VecDeque<Tuple>, size: u64, now: u64) -> Option<Tuple>
    ensures past { is_some result ≡ begins_past size now tuples.old.items }
    ensures rest { tuples.old.items ≡ option_to_list result ++ tuples.new.items }
{
    match tuples.front() {
        Some(x) => {
            if now.saturating_sub(x.time) <= size {
                return None;
            }
        }
        None => return None,
    }
    tuples.pop_front()
}

/// The time of the first tuple, or this one where there is none.
pub fn first_time(tuples: &VecDeque<Tuple>, now: u64) -> u64
    ensures { result ≡ first_time_from now tuples.now.items }
{
    match tuples.front() {
        Some(x) => x.time,
        None => now,
    }
}
