//! What the time of a tuple says below a drop: it is the start of a window.
//!
//! A drop stands above Aggregates alone: on each way from it to an output there is one, and behind the last of them only Filters, Maps and
//! Unions, which keep the times of tuples. So the batch of a tuple, its time divided by the length, is the batch in which its window starts.
//! The law is the contract of `times_are_starts`; there is no code. Below stand the definitions of full answers and of drop points, and
//! the laws of one box below a drop.
#![tactic(auto)]

ghost use Rattle.std.specs.Prelude.{List};
ghost use Rattle.sq_value.specs.declared.Tuple.{Tuple};
ghost use Rattle.sq_net.specs.declared.Network.{Network};
ghost use Rattle.sq_net.specs.SoundNetworks.{IsSound};
ghost use Rattle.sq_starts.specs.LastAggregates.{TimesAreStarts};

/// Each tuple of the full answer of an output below a drop has as time the start of a window of a last Aggregate of the output, in which a
/// tuple lies that the Aggregate takes.
pub fn times_are_starts()
    ensures { (n : Network) (sources : List (List Tuple)) → IsSound n → TimesAreStarts n sources }
{}
