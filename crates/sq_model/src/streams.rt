// The full streams, one box after another.
ghost use Rattle.std.specs.Prelude.{◌≡◌, ◌<◌, ◌-◌, ◌++◌, ℕ, [], ◌∷◌, List, map, replicate, length, IfOk, OnOk, true};
ghost use Rattle.std.specs.List.{All};
ghost use Rattle.sq_value.specs.Values.{IsStream};
ghost use Rattle.sq_graph.specs.Wires.{producers_of};
ghost use Rattle.sq_graph.specs.Order.{can_be_next};
ghost use Rattle.sq_model.specs.FullStreams.{full_streams};
ghost use Rattle.sq_model.specs.PlacedNetworks.{IsPlaced};
ghost use Rattle.sq_model.specs.StreamsSoFar.{Stands};

use crate::boxes::box_list;
use sq_graph::{box_order, stream_of};
use sq_net::Network;
use sq_value::Tuple;
use std::alloc::{AllocError, Global};

fn push_empty(alloc: Global, streams: &mut Vec<Vec<Tuple>>, many: u32) -> Result<(), AllocError>
    ensures { OnOk result (map (λ t. t.items) streams.new.items ≡ map (λ t. t.items) streams.old.items ++ replicate many []) }
{
    for _port in 0..many {
        streams.push(Vec::new(alloc))?;
    }
    Ok(())
}

// Puts what a box gives at each of its ports among the streams, where all that it takes stands there.
fn give_ports(
    alloc: Global,
    n: &Network,
    at: u32,
    streams: &mut [Vec<Tuple>],
) -> Result<(), AllocError>
    requires placed { IsPlaced n.now }
    requires there { at < length n.now.boxes }
    requires room { length streams.old ≡ length (producers_of n.now.wires) }
    requires streams { All IsStream (map (λ t. t.items) streams.old) }
    ensures streams { OnOk result (All IsStream (map (λ t. t.items) streams.new)) }
    ensures given { OnOk result ((sources : List (List Tuple)) (front : List ℕ) → can_be_next n.now.wires front at ≡ true
        → Stands n.now sources front (map (λ t. t.items) streams.old)
        → Stands n.now sources (front ++ at ∷ []) (map (λ t. t.items) streams.new)) }
{
    let wires = &n.wires.boxes.as_slice()[at as usize];
    let node = &n.boxes.as_slice()[at as usize];
    let first = stream_of(&n.wires, at, 0);
    for port in 0..wires.ports {
        let given = box_list(alloc, &node.body, port, streams, wires.inputs.as_slice())?;
        streams[(first + port) as usize] = given;
    }
    Ok(())
}

/// The full stream of every stream, by number: those of the sources are the recorded tuples, which are moved there, and
/// each box is worked out once, behind those that it takes.
pub fn full_streams(
    alloc: Global,
    n: &Network,
    sources: Vec<Vec<Tuple>>,
) -> Result<Vec<Vec<Tuple>>, AllocError>
    requires placed { IsPlaced n.now }
    requires sources { length sources.items ≡ n.now.wires.sources }
    requires streams { All IsStream (map (λ t. t.items) sources.items) }
    ensures { IfOk result (λ v. map (λ t. t.items) v.items ≡ full_streams n.now (map (λ t. t.items) sources.items)) }
{
    let order = box_order(alloc, &n.wires)?;
    let ports = stream_of(&n.wires, n.wires.boxes.as_slice().len() as u32, 0) - n.wires.sources;
    let mut streams = sources;
    push_empty(alloc, &mut streams, ports)?;
    for at in &order {
        give_ports(alloc, n, *at, &mut streams)?;
    }
    Ok(streams)
}
