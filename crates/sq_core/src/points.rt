//! Where drops stand, and what lies below them.

ghost use Rattle.std.specs.Prelude.{◌≡◌, ◌<◌, ◌==◌, is_some, IfSome, length};
ghost use Rattle.std.specs.List.{list_any};
ghost use Rattle.std.specs.Option.{option_map};
ghost use Rattle.sq_graph.specs.Wires.{arcs_of};
ghost use Rattle.sq_place.specs.Places.{stream_on, own_arcs};
ghost use Rattle.sq_net.specs.SoundNetworks.{IsSound};
ghost use Rattle.sq_points.specs.Points.{points_of};
ghost use Rattle.sq_words.specs.Lists.{contains_number};
ghost use Rattle.sq_points.specs.Above.{first_drop, drop_on_arc};

use sq_net::Network;
use sq_place::{DropAt, DropPoint};
use sq_points::above_arc;

/// Whether a drop stands on an arc of this stream.
#[tactic(auto, using(crate::proofs::PointLemmas::owns_stream, crate::proofs::PointLemmas::owns_arc))]
fn stands_on(n: &Network, point: &DropPoint, stream: u32, arc: u32) -> bool
    requires there { arc < length (arcs_of n.now.wires) }
    requires stream { stream ≡ stream_on n.now.wires arc }
    ensures { result ≡ contains_number (own_arcs n.now.wires point.now.at) arc }
{
    match point.at {
        DropAt::Stream(at) => stream == at,
        DropAt::Arc(at) => at == arc,
    }
}

/// The drop that stands on an arc of this stream, if one does.
#[tactic(auto, using(crate::proofs::TableLemmas::points_low))]
pub(crate) fn drop_on(n: &Network, points: &[DropPoint], stream: u32, arc: u32) -> Option<u32>
    requires sound { IsSound n.now }
    requires points { points.now ≡ points_of n.now }
    requires there { arc < length (arcs_of n.now.wires) }
    requires stream { stream ≡ stream_on n.now.wires arc }
    ensures drop { result ≡ option_map (λ d. d.0) (drop_on_arc n.now arc) }
    ensures there { IfSome result (λ number. number < length points.now) }
{
    for number in 0..points.len() {
        if stands_on(n, &points[number], stream, arc) {
            return Some(number as u32);
        }
    }
    None
}

/// Whether an arc lies below one of these drops.
pub(crate) fn is_below(points: &[DropPoint], arc: u32) -> bool
    ensures { result ≡ is_some (first_drop (λ p. list_any (λ d. d.0 == arc) p.reach) 0 points.now) }
{
    above_arc(points, arc).is_some()
}
