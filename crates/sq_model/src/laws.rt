// Laws, each the contract of a function that does nothing.
ghost use Rattle.std.specs.Prelude.{List};
ghost use Rattle.std.specs.List.{All};
ghost use Rattle.sq_value.specs.Values.{IsStream};
ghost use Rattle.sq_net.specs.SoundNetworks.{IsSound};
ghost use Rattle.sq_model.specs.FittingStreams.{SourcesFit, StreamsFit};
ghost use Rattle.sq_model.specs.FullStreams.{full_streams};
ghost use Rattle.sq_model.specs.PlacedNetworks.{IsPlaced};
ghost use Rattle.sq_model.specs.Laws.{AreFull, LateAreTheRest};

use sq_net::Network;
use sq_value::Tuple;

/// A sound network is one whose streams can be worked out.
pub fn sound_is_placed(n: &Network)
    requires { IsSound n.now }
    ensures { IsPlaced n.now }
{
    let _n = n;
}

/// Each full stream is what its source or its box gives for the full streams that the box takes, and only the full
/// streams are so.
pub fn full_streams_follow(n: &Network)
    requires { IsPlaced n.now }
    ensures { (sources : List (List Tuple)) → AreFull n.now sources }
{
    let _n = n;
}

/// Where what the sources recorded are streams, so are all full streams: their times are ticks (below 2^40) that don't
/// fall.
pub fn full_streams_are_streams(n: &Network)
    ensures { (sources : List (List Tuple)) → All IsStream sources → All IsStream (full_streams n.now sources) }
{
    let _n = n;
}

/// Where what the sources of a sound network recorded fits their columns, each tuple of a full stream fits the columns of
/// that stream.
pub fn full_streams_fit(n: &Network)
    requires { IsSound n.now }
    ensures { (sources : List (List Tuple)) → SourcesFit n.now sources → StreamsFit n.now sources }
{
    let _n = n;
}

/// What a BSort is fed is what it gives and its late tuples: it never gives more than it is fed.
pub fn late_tuples_are_the_rest(n: &Network)
    requires { IsSound n.now }
    ensures { (sources : List (List Tuple)) → LateAreTheRest n.now sources }
{
    let _n = n;
}
