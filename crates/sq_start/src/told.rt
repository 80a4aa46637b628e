//! What the actors of a network are told of the window drops above them.

ghost use Rattle.std.specs.Prelude.{◌≡◌, ◌<◌, IfOk, length};
ghost use Rattle.sq_graph.specs.Wires.{input_arcs_of};
ghost use Rattle.sq_words.specs.Lists.{max_by, contains_number};
ghost use Rattle.sq_net.specs.SoundNetworks.{IsSound};
ghost use Rattle.sq_points.specs.Points.{points_of};
ghost use Rattle.sq_start.specs.Starts.{IsDropAbove, AreLags, lags_below, length_above};
ghost use Rattle.sq_points.specs.Above.{first_drop, distance_of, drop_above_box};

use sq_graph::arc_of;
use sq_net::Network;
use sq_place::DropPoint;
use sq_points::{above_box, above_output, distance_below};
use std::alloc::{AllocError, Global};

/// The length of the batches of the first drop below which an output lies, if it lies below one.
pub(crate) fn length_above(points: &[DropPoint], o: u32) -> Option<u64>
    ensures { result ≡ length_above (first_drop (λ p. contains_number p.outputs o) 0 points.now) }
{
    match above_output(points, o) {
        None => None,
        Some(w) => Some(points[w].length),
    }
}

fn farthest(p: &DropPoint, arcs: &[u32]) -> u64
    ensures { result ≡ max_by (distance_of p.now) arcs.now }
{
    let mut most = 0;
    for arc in arcs {
        most = most.max(distance_below(p, *arc));
    }
    most
}

fn lags_below(alloc: Global, p: &DropPoint, arcs: &[u32]) -> Result<Vec<u64>, AllocError>
    ensures { IfOk result (λ v. v.items ≡ lags_below p.now arcs.now) }
{
    let most = farthest(p, arcs);
    let mut lags = Vec::new(alloc);
    for arc in arcs {
        lags.push(most - distance_below(p, *arc))?;
    }
    Ok(lags)
}

fn zeros(alloc: Global, many: usize) -> Result<Vec<u64>, AllocError>
    ensures { IfOk result (λ v. length v.items ≡ many) }
{
    let mut lags = Vec::new(alloc);
    for _lag in 0..many {
        lags.push(0)?;
    }
    Ok(lags)
}

fn input_arcs(alloc: Global, n: &Network, b: u32) -> Result<Vec<u32>, AllocError>
    requires sound { IsSound n.now }
    requires there { b < length n.now.wires.boxes }
    ensures { IfOk result (λ v. v.items ≡ input_arcs_of n.now.wires b) }
{
    let inputs = n.wires.boxes.as_slice()[b as usize].inputs.as_slice().len();
    let mut arcs = Vec::new(alloc);
    for port in 0..inputs {
        arcs.push(arc_of(&n.wires, b, port as u32))?;
    }
    Ok(arcs)
}

/// The lags of a box's inputs, and whether it lies below a drop.
pub(crate) fn box_lags(
    alloc: Global,
    n: &Network,
    points: &[DropPoint],
    b: u32,
) -> Result<(Vec<u64>, bool), AllocError>
    requires sound { IsSound n.now }
    requires points { points.now ≡ points_of n.now }
    requires there { b < length n.now.wires.boxes }
    ensures above { IfOk result (λ t. IsDropAbove t.1 (drop_above_box n.now b)) }
    ensures lags { IfOk result (λ t. AreLags n.now b (t.0).items (drop_above_box n.now b)) }
{
    let arcs = input_arcs(alloc, n, b)?;
    match above_box(points, b) {
        None => Ok((zeros(alloc, arcs.len())?, false)),
        Some(w) => Ok((lags_below(alloc, &points[w], &arcs)?, true)),
    }
}
