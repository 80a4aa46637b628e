//! The wires of a network.

ghost use Rattle.std.specs.Prelude.{◌≡◌, ◌+◌, ◌<◌, ◌^◌, ◌∷◌, [], true, length, map, IfOk, OnOk};
ghost use Rattle.std.specs.List.{All};
ghost use Rattle.sq_graph.specs.Wires.{producer_of, arcs_of, input_arcs_of};
ghost use Rattle.sq_graph.specs.Order.{is_there};
ghost use Rattle.sq_place.specs.Places.{stream_on, box_of};
ghost use Rattle.sq_net.specs.SoundNetworks.{IsSound};
ghost use Rattle.sq_net.specs.Streams.{columns_of_stream};
ghost use Rattle.sq_points.specs.Points.{points_of};
ghost use Rattle.sq_model.specs.GivenLevels.{IsAt};
ghost use Rattle.sq_below.specs.Actors.{Box, giver};
ghost use Rattle.sq_start.specs.Numbers.{ops_of, actor_at, place_stream};
ghost use Rattle.sq_core.specs.Table.{AreWires, IsTopology, actors_of, arc_feed, drops_behind, feed_from, feed_table, feeds_row};
ghost use Rattle.sq_core.specs.Table.{kinds_on, place_feed, same_box, turned, with_outputs};

use crate::join::{Feed, copy_kinds, wires_of};
use crate::points::{drop_on, is_below};
use sq_flow::Wires;
use sq_graph::{Producer, arc_of, arc_streams, box_order, given_by, output_arc};
use sq_net::Network;
use sq_place::{DropAt, DropPoint};
use sq_value::{Kind, ListOf};
use std::alloc::{AllocError, Global};

/// What the wires of a network are made from: the network, its drop points, the streams of its arcs, and the replay's number.
#[derive(Drop)]
struct Topology<'a> {
    n: &'a Network,
    points: &'a [DropPoint],
    streams: &'a [u32],
    replay: u32,
}

#[tactic(auto, using(crate::proofs::PointLemmas::streams_many, crate::proofs::PointLemmas::stream_at))]
fn stream_on(it: &Topology, arc: u32) -> u32
    requires topology { IsTopology it.now }
    requires there { arc < length (arcs_of it.now.n.now.wires) }
    ensures { result ≡ stream_on it.now.n.now.wires arc }
{
    let _wires = &it.n.wires;
    it.streams[arc as usize]
}

/// The kinds of the values of a stream's tuples.
fn kinds_on(alloc: Global, n: &Network, stream: u32) -> Result<ListOf<Kind>, AllocError>
    requires sound { IsSound n.now }
    requires there { is_there (producer_of n.now.wires stream) ≡ true }
    ensures { IfOk result (λ kinds. kinds ≡ kinds_on (columns_of_stream n.now stream)) }
{
    copy_kinds(alloc, n.stream_schema(stream).kinds())
}

/// The feed that takes a stream from what gives it.
#[tactic(auto, using(crate::proofs::TableLemmas::boxes_low))]
fn given_feed(alloc: Global, it: &Topology, stream: u32, marked: bool) -> Result<Feed, AllocError>
    requires topology { IsTopology it.now }
    requires there { is_there (producer_of it.now.n.now.wires stream) ≡ true }
    ensures { IfOk result (λ feed. feed ≡ feed_from it.now.n.now stream marked (giver (producer_of it.now.n.now.wires stream))) }
{
    let kinds = kinds_on(alloc, it.n, stream)?;
    match given_by(&it.n.wires, stream) {
        Some(Producer::Source { source }) => Ok(Feed {
            from: it.replay,
            port: source,
            kinds,
            marked,
        }),
        Some(Producer::Port { at, port }) => Ok(Feed {
            from: at,
            port,
            kinds,
            marked,
        }),
        None => unreachable!(),
    }
}

/// The feed of an arc.
#[tactic(auto, using(crate::proofs::TableLemmas::boxes_low, crate::proofs::TableLemmas::points_low, crate::proofs::TableLemmas::arc_stream_there))]
fn arc_feed(alloc: Global, it: &Topology, arc: u32) -> Result<Feed, AllocError>
    requires topology { IsTopology it.now }
    requires there { arc < length (arcs_of it.now.n.now.wires) }
    ensures { IfOk result (λ feed. feed ≡ arc_feed it.now.n.now arc) }
{
    let stream = stream_on(it, arc);
    let marked = is_below(it.points, arc);
    match drop_on(it.n, it.points, stream, arc) {
        Some(drop) => {
            let kinds = kinds_on(alloc, it.n, stream)?;
            Ok(Feed {
                from: it.n.boxes.as_slice().len() as u32 + drop,
                port: 0,
                kinds,
                marked,
            })
        }
        None => given_feed(alloc, it, stream, marked),
    }
}

/// The stream at a place.
fn place_stream(it: &Topology, at: DropAt) -> u32
    requires topology { IsTopology it.now }
    requires there { IsAt it.now.n.now at }
    ensures { result ≡ place_stream it.now.n.now at }
{
    match at {
        DropAt::Stream(stream) => stream,
        DropAt::Arc(arc) => stream_on(it, arc),
    }
}

/// The feed of a drop.
#[tactic(auto, using(crate::proofs::TableLemmas::place_stream_there))]
fn place_feed(alloc: Global, it: &Topology, point: &DropPoint) -> Result<Feed, AllocError>
    requires topology { IsTopology it.now }
    requires there { IsAt it.now.n.now point.now.at }
    ensures { IfOk result (λ feed. feed ≡ place_feed it.now.n.now point.now) }
{
    let stream = place_stream(it, point.at);
    given_feed(alloc, it, stream, false)
}

/// The arcs that a box takes.
fn input_arcs(alloc: Global, n: &Network, at: u32) -> Result<Vec<u32>, AllocError>
    requires sound { IsSound n.now }
    requires there { at < length n.now.wires.boxes }
    ensures { IfOk result (λ v. v.items ≡ input_arcs_of n.now.wires at) }
{
    let mut arcs = Vec::new(alloc);
    for port in 0..n.wires.boxes.as_slice()[at as usize]
        .inputs
        .as_slice()
        .len() as u32
    {
        arcs.push(arc_of(&n.wires, at, port))?;
    }
    Ok(arcs)
}

/// What a box reads.
fn box_row(alloc: Global, it: &Topology, at: u32) -> Result<Vec<Feed>, AllocError>
    requires topology { IsTopology it.now }
    requires there { at < length it.now.n.now.wires.boxes }
    ensures { IfOk result (λ v. v.items ≡ feeds_row it.now.n.now (Box at)) }
{
    let arcs = input_arcs(alloc, it.n, at)?;
    let mut row = Vec::new(alloc);
    for index in 0..arcs.len() {
        let arc = arcs[index];
        let feed = arc_feed(alloc, it, arc)?;
        row.push(feed)?;
    }
    Ok(row)
}

fn one_feed(alloc: Global, feed: Feed) -> Result<Vec<Feed>, AllocError>
    ensures { IfOk result (λ v. v.items ≡ feed ∷ []) }
{
    Ok(vec![in alloc; feed]?)
}

/// What an operator reads.
#[tactic(auto, using(crate::proofs::TableLemmas::boxes_low, crate::proofs::TableLemmas::points_low))]
fn row_at(alloc: Global, it: &Topology, actor: u32) -> Result<Vec<Feed>, AllocError>
    requires topology { IsTopology it.now }
    requires there { actor < ops_of it.now.n.now }
    ensures { IfOk result (λ v. v.items ≡ feeds_row it.now.n.now (actor_at it.now.n.now actor)) }
{
    let boxes = it.n.boxes.as_slice().len() as u32;
    let first = boxes + it.points.len() as u32;
    if actor < boxes {
        return box_row(alloc, it, actor);
    }
    if actor < first {
        let point = &it.points[(actor - boxes) as usize];
        let given = place_feed(alloc, it, point)?;
        return one_feed(alloc, given);
    }
    let arc = output_arc(&it.n.wires, actor - first);
    let feed = arc_feed(alloc, it, arc)?;
    one_feed(alloc, feed)
}

/// What each operator reads.
fn feed_table(alloc: Global, it: &Topology) -> Result<Vec<Vec<Feed>>, AllocError>
    requires { IsTopology it.now }
    ensures { IfOk result (λ v. map (λ f. f.items) v.items ≡ feed_table it.now.n.now) }
{
    let mut table = Vec::new(alloc);
    for actor in 0..it.replay {
        table.push(row_at(alloc, it, actor)?)?;
    }
    Ok(table)
}

/// The box that gives a stream, if one does.
#[tactic(auto, using(crate::proofs::TableLemmas::boxes_low))]
fn box_giving(n: &Network, stream: u32) -> Option<u32>
    requires { IsSound n.now }
    ensures { result ≡ box_of (producer_of n.now.wires stream) }
{
    match given_by(&n.wires, stream) {
        Some(Producer::Port { at, .. }) => Some(at),
        Some(Producer::Source { .. }) => None,
        None => None,
    }
}

fn same_box(one: Option<u32>, other: Option<u32>) -> bool
    ensures { result ≡ same_box one other }
{
    match (one, other) {
        (None, None) => true,
        (Some(a), Some(b)) => a == b,
        _ => false,
    }
}

/// Puts the drops whose stream a box gives, or a source, in front of earlier operators.
#[tactic(auto, using(crate::proofs::TableLemmas::boxes_low, crate::proofs::TableLemmas::points_low))]
fn add_drops(it: &Topology, giver: Option<u32>, all: &mut Vec<u32>) -> Result<(), AllocError>
    requires { IsTopology it.now }
    ensures { OnOk result (all.new.items ≡ turned all.old.items (drops_behind it.now.n.now giver)) }
{
    let boxes = it.n.boxes.as_slice().len() as u32;
    for number in 0..it.points.len() {
        let stream = place_stream(it, it.points[number].at);
        if same_box(box_giving(it.n, stream), giver) {
            all.insert(0, boxes + number as u32)?;
        }
    }
    Ok(())
}

/// Puts the outputs in front of all other operators.
fn add_outputs(first: u32, outputs: u32, all: &mut Vec<u32>) -> Result<(), AllocError>
    requires { first + outputs < 2 ^ 32 }
    ensures { OnOk result (all.new.items ≡ with_outputs first outputs all.old.items) }
{
    for output in 0..outputs {
        all.insert(0, first + output)?;
    }
    Ok(())
}

/// The operators in an order in which each stands behind those that it reads, the last first.
#[tactic(auto, using(crate::proofs::TableLemmas::boxes_low, crate::proofs::TableLemmas::points_low, crate::proofs::TableLemmas::outputs_low))]
fn actors_of(alloc: Global, it: &Topology) -> Result<Vec<u32>, AllocError>
    requires { IsTopology it.now }
    ensures { IfOk result (λ v. v.items ≡ actors_of it.now.n.now) }
{
    let boxes = box_order(alloc, &it.n.wires)?;
    let mut all = Vec::new(alloc);
    add_drops(it, None, &mut all)?;
    for index in 0..boxes.len() {
        let at = boxes[index];
        all.insert(0, at)?;
        add_drops(it, Some(at), &mut all)?;
    }
    let first = it.n.boxes.as_slice().len() as u32 + it.points.len() as u32;
    add_outputs(first, it.n.wires.outputs.as_slice().len() as u32, &mut all)?;
    Ok(all)
}

/// The wires of a sound network: its boxes, behind them its window drops, and then its outputs, read what the network says.
#[tactic(auto, using(crate::proofs::TableLemmas::boxes_low, crate::proofs::TableLemmas::points_low, crate::proofs::TableLemmas::outputs_low))]
pub(crate) fn network_wires(
    alloc: Global,
    n: &Network,
    points: &[DropPoint],
) -> Result<Wires, AllocError>
    requires sound { IsSound n.now }
    requires points { points.now ≡ points_of n.now }
    requires places { All (λ p. IsAt n.now p.at) points.now }
    ensures { IfOk result (AreWires n.now) }
{
    let boxes = n.boxes.as_slice().len() as u32;
    let first = boxes + points.len() as u32;
    let streams = arc_streams(alloc, &n.wires)?;
    let it = Topology {
        n,
        points,
        streams: &streams,
        replay: first + n.wires.outputs.as_slice().len() as u32,
    };
    let table = feed_table(alloc, &it)?;
    let order = actors_of(alloc, &it)?;
    wires_of(alloc, boxes, first, &table, order)
}
