// The full stream of an arc.
ghost use Rattle.std.specs.Prelude.{◌≡◌, ◌<◌, map, length, IfOk};
ghost use Rattle.std.specs.List.{All};
ghost use Rattle.sq_value.specs.Values.{IsStream};
ghost use Rattle.sq_graph.specs.Wires.{arcs_of};
ghost use Rattle.sq_model.specs.FullStreams.{full_arc};
ghost use Rattle.sq_model.specs.PlacedNetworks.{IsPlaced};

use crate::boxes::push_copies;
use crate::streams::full_streams;
use sq_graph::arc_streams;
use sq_net::Network;
use sq_value::Tuple;
use std::alloc::{AllocError, Global};

pub(crate) fn copies(alloc: Global, streams: &[Vec<Tuple>]) -> Result<Vec<Vec<Tuple>>, AllocError>
    ensures { IfOk result (λ v. map (λ t. t.items) v.items ≡ map (λ t. t.items) streams.now) }
{
    let mut all = Vec::new(alloc);
    for stream in streams {
        let mut copy = Vec::new(alloc);
        push_copies(stream, &mut copy)?;
        all.push(copy)?;
    }
    Ok(all)
}

/// The full stream of an arc, by its number. It works out the streams of all boxes: for many arcs take `full_streams`.
pub fn full(
    alloc: Global,
    n: &Network,
    sources: &[Vec<Tuple>],
    arc: u32,
) -> Result<Vec<Tuple>, AllocError>
    requires placed { IsPlaced n.now }
    requires sources { length sources.now ≡ n.now.wires.sources }
    requires streams { All IsStream (map (λ t. t.items) sources.now) }
    requires arc { arc < length (arcs_of n.now.wires) }
    ensures { IfOk result (λ v. v.items ≡ full_arc n.now (map (λ t. t.items) sources.now) arc) }
{
    let streams = arc_streams(alloc, &n.wires)?;
    let stream = streams[arc as usize];
    let mut full = full_streams(alloc, n, copies(alloc, sources)?)?;
    Ok(full.swap_remove(stream as usize))
}
