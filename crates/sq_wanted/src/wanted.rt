// What an output is to show, and whether it is still to show something.
ghost use Rattle.std.specs.Prelude.{◌≡◌, ℕ, List, map, length, nat_lt};
ghost use Rattle.sq_wanted.specs.Showing.{IsBelow, count_of, shown_one};
ghost use Rattle.sq_wanted.specs.Places.{HoldRecord, IsAtPlace};

use crate::skipping::next_place;
use sq_value::{Name, Tuple, stream_in};
use std::collections::BTreeSet;

/// What an output is to show.
#[derive(Drop)]
pub struct Wanted {
    /// The name that its lines begin with.
    pub name: Name,
    /// The number of its stream among those that are given.
    pub stream: u32,
    /// The number of the drop above it and the length of that drop's batches in ticks; none where no drop is above.
    pub above: Option<(u32, u64)>,
}

/// Whether an output is still to show a tuple.
pub fn has_more(
    sets: &[BTreeSet<u64>],
    streams: &[Vec<Tuple>],
    output: &Wanted,
    place: usize,
) -> bool
    requires below { IsBelow (length sets.now) output.now }
    ensures { (record_at : ℕ → List ℕ) (before : List (List ℕ)) → HoldRecord sets.now record_at → IsAtPlace record_at (map (λ t. t.items) streams.now) output.now place before
        → result ≡ nat_lt (count_of before output.now.name) (length (shown_one record_at (map (λ t. t.items) streams.now) output.now).1) }
{
    let tuples = stream_in(streams, output.stream);
    next_place(sets, output.above, tuples, place) < tuples.len()
}
