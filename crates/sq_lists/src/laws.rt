// The law of boxes and streams, as the contract of a function that does nothing.
ghost use Rattle.sq_lists.specs.Keeps.{KeepStreams};

/// The boxes keep streams: where the times of each input are ticks (below 2^40) that don't fall, so are those of what a
/// Filter gives at each port, and of what a Map, a Union of any number of streams, a BSort, an Aggregate, a Join and a
/// Resample give.
#[tactic(auto, using(crate::proofs::KeepLemmas::keep_streams))]
pub fn boxes_keep_streams()
    ensures { KeepStreams }
{}
