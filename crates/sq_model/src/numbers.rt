// How many tuples boxes are fed, and how many of them are late.
ghost use Rattle.std.specs.Prelude.{◌≡◌, ◌<◌, ◌≤◌, ◌*◌, ◌^◌, map, length, IfOk};
ghost use Rattle.std.specs.List.{sum_by};
ghost use Rattle.sq_words.specs.Lists.{numbers_to, nth};
ghost use Rattle.sq_model.specs.FullCounts.{fed_from, late_from};
ghost use Rattle.sq_model.specs.PlacedNetworks.{IsPlaced};

use sq_graph::stream_of;
use sq_net::{Body, Network};
use sq_value::{Tuple, stream_in};
use std::alloc::{AllocError, Global};
use std::mem::size_of_val;

// How many tuples these are. That they lie in memory at once bounds their number.
fn number_of(tuples: &[Tuple]) -> u64
    ensures number { result ≡ length tuples.now }
    ensures few { 8 * result < 2 ^ 64 }
{
    let _bytes = size_of_val(tuples);
    tuples.len() as u64
}

fn number_in(streams: &[Vec<Tuple>], inputs: &[u32]) -> u64
    requires { length inputs.now ≤ 8 }
    ensures { result ≡ sum_by (λ s. length (nth (map (λ v. v.items) streams.now) s)) inputs.now }
{
    let mut number = 0;
    for stream in inputs {
        number += number_of(stream_in(streams, *stream));
    }
    number
}

/// How many tuples each box is fed over all its inputs, in the order of the boxes, where these are the streams by number.
/// For `full_streams` it is what a run feeds that drops nothing.
pub fn fed(alloc: Global, n: &Network, streams: &[Vec<Tuple>]) -> Result<Vec<u64>, AllocError>
    requires { IsPlaced n.now }
    ensures { IfOk result (λ v. v.items ≡ map (fed_from n.now (map (λ t. t.items) streams.now)) (numbers_to (length n.now.boxes))) }
{
    let mut all = Vec::new(alloc);
    for wires in n.wires.boxes.as_slice() {
        all.push(number_in(streams, wires.inputs.as_slice()))?;
    }
    Ok(all)
}

fn late_at(n: &Network, at: u32, streams: &[Vec<Tuple>]) -> u64
    requires placed { IsPlaced n.now }
    requires there { at < length n.now.boxes }
    ensures { result ≡ late_from n.now (map (λ t. t.items) streams.now) at }
{
    let node = &n.boxes.as_slice()[at as usize];
    let wires = &n.wires.boxes.as_slice()[at as usize];
    match &node.body {
        Body::BSort { .. } => {
            let taken = number_in(streams, wires.inputs.as_slice());
            let given = number_of(stream_in(streams, stream_of(&n.wires, at, 0)));
            taken.saturating_sub(given)
        }
        _ => 0,
    }
}

/// How many late tuples each box has, in the order of the boxes, where these are the streams by number: those that a
/// BSort is fed less those that it gives, and 0 for a box that is no BSort.
pub fn late(alloc: Global, n: &Network, streams: &[Vec<Tuple>]) -> Result<Vec<u64>, AllocError>
    requires { IsPlaced n.now }
    ensures { IfOk result (λ v. v.items ≡ map (late_from n.now (map (λ t. t.items) streams.now)) (numbers_to (length n.now.boxes))) }
{
    let mut all = Vec::new(alloc);
    for at in 0..n.boxes.as_slice().len() as u32 {
        all.push(late_at(n, at, streams))?;
    }
    Ok(all)
}
