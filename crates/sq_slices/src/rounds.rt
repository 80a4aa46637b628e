// The reaches of all streams, worked out in rounds: each round has what lies one box further.
ghost use Rattle.std.specs.Prelude.{◌≡◌, ◌<◌, ◌≤◌, ◌^◌, length, map, slice_get, IfOk, is_some, not};
ghost use Rattle.std.specs.List.{find, list_all};
ghost use Rattle.std.specs.Option.{IfSome};
ghost use Rattle.sq_words.specs.Lists.{numbers_to};
ghost use Rattle.sq_graph.specs.Wires.{inputs_of, producer_of};
ghost use Rattle.sq_net.specs.SoundNetworks.{IsSound};
ghost use Rattle.sq_slices.specs.Bounds.{AreLow};
ghost use Rattle.sq_slices.specs.Laws.{run_reach};
ghost use Rattle.sq_slices.specs.Reaches.{box_reach_at, first_uncut, is_uncut, output_reaches_of, outputs_reach, reach_numbered, reach_given, reaches_of};

use crate::Reach;
use crate::boxes::{box_reach, earlier_if, own_reach, reach_numbered, union_reach};
use sq_graph::{Producer, given_by, stream_of};
use sq_net::Network;
use sq_shard::inputs_of;
use std::alloc::{AllocError, Global};

// The reaches of some streams, where these are those of all.
fn taken_reaches(
    alloc: Global,
    reaches: &[Option<Reach>],
    inputs: &[u32],
) -> Result<Vec<Option<Reach>>, AllocError>
    ensures { IfOk result (λ v. v.items ≡ map (reach_numbered reaches.now) inputs.now) }
{
    let mut taken = Vec::new(alloc);
    for stream in inputs {
        taken.push(reach_numbered(reaches, *stream as usize))?;
    }
    Ok(taken)
}

fn port_reach(
    alloc: Global,
    n: &Network,
    delay: Option<u64>,
    reaches: &[Option<Reach>],
    at: u32,
) -> Result<Option<Reach>, AllocError>
    requires sound { IsSound n.now }
    requires delay { IfSome delay (λ d. d < 2 ^ 40) }
    requires low { AreLow (2 ^ 59) reaches.now }
    ensures { IfOk result (λ r. r ≡ box_reach_at delay (slice_get n.now.boxes at) (map (reach_numbered reaches.now) (inputs_of n.now.wires at))) }
{
    match n.boxes.as_slice().get(at as usize) {
        None => Ok(None),
        Some(node) => {
            let taken = taken_reaches(alloc, reaches, inputs_of(&n.wires, at))?;
            Ok(box_reach(delay, &node.body, &taken))
        }
    }
}

// The reach of a stream, where these are those of the streams that its box takes.
fn reach_given(
    alloc: Global,
    n: &Network,
    delay: Option<u64>,
    reaches: &[Option<Reach>],
    stream: u32,
) -> Result<Option<Reach>, AllocError>
    requires sound { IsSound n.now }
    requires delay { IfSome delay (λ d. d < 2 ^ 40) }
    requires low { AreLow (2 ^ 59) reaches.now }
    ensures { IfOk result (λ r. r ≡ reach_given n.now delay (reach_numbered reaches.now) (producer_of n.now.wires stream)) }
{
    match given_by(&n.wires, stream) {
        None => Ok(None),
        Some(Producer::Source { .. }) => Ok(Some(own_reach())),
        Some(Producer::Port { at, .. }) => port_reach(alloc, n, delay, reaches, at),
    }
}

// One round: the reach of each stream by those that stand now.
fn next_reaches(
    alloc: Global,
    n: &Network,
    delay: Option<u64>,
    reaches: &[Option<Reach>],
    streams: u32,
) -> Result<Vec<Option<Reach>>, AllocError>
    requires sound { IsSound n.now }
    requires delay { IfSome delay (λ d. d < 2 ^ 40) }
    requires low { AreLow (2 ^ 59) reaches.now }
    ensures { IfOk result (λ v. v.items ≡ map (λ s. reach_given n.now delay (reach_numbered reaches.now) (producer_of n.now.wires s)) (numbers_to streams)) }
{
    let mut next = Vec::new(alloc);
    for stream in 0..streams {
        next.push(reach_given(alloc, n, delay, reaches, stream)?)?;
    }
    Ok(next)
}

fn no_reaches(alloc: Global, streams: u32) -> Result<Vec<Option<Reach>>, AllocError>
    ensures { IfOk result (λ v. v.items ≡ map (λ s. None) (numbers_to streams)) }
{
    let mut reaches = Vec::new(alloc);
    for _stream in 0..streams {
        reaches.push(None)?;
    }
    Ok(reaches)
}

/// How far a slice of each stream, by number, reaches into the sources, or none where it can't be sliced. `delay` is how many
/// ticks after its time a tuple may come to a BSort: where none is told, nothing behind a BSort can be sliced.
pub fn reaches(
    alloc: Global,
    n: &Network,
    delay: Option<u64>,
) -> Result<Vec<Option<Reach>>, AllocError>
    requires sound { IsSound n.now }
    requires delay { IfSome delay (λ d. d < 2 ^ 40) }
    ensures { IfOk result (λ v. v.items ≡ reaches_of n.now delay) }
{
    let boxes = n.wires.boxes.as_slice().len() as u32;
    let streams = stream_of(&n.wires, boxes, 0);
    let mut found = no_reaches(alloc, streams)?;
    for _round in 0..boxes + 1 {
        found = next_reaches(alloc, n, delay, &found, streams)?;
    }
    Ok(found)
}

/// How far a slice of each output reaches.
pub fn output_reaches(
    alloc: Global,
    n: &Network,
    delay: Option<u64>,
) -> Result<Vec<Option<Reach>>, AllocError>
    requires sound { IsSound n.now }
    requires delay { IfSome delay (λ d. d < 2 ^ 40) }
    ensures { IfOk result (λ v. v.items ≡ output_reaches_of n.now delay) }
{
    let all = reaches(alloc, n, delay)?;
    taken_reaches(alloc, &all, n.wires.outputs.as_slice())
}

/// How far slices reach that serve all outputs.
pub fn outputs_reach(
    alloc: Global,
    n: &Network,
    delay: Option<u64>,
) -> Result<Option<Reach>, AllocError>
    requires sound { IsSound n.now }
    requires delay { IfSome delay (λ d. d < 2 ^ 40) }
    ensures { IfOk result (λ r. r ≡ outputs_reach n.now delay) }
{
    let each = output_reaches(alloc, n, delay)?;
    Ok(union_reach(&each))
}

/// How far slices of a run reach that make the whole where each of them is in time.
pub fn run_reach(alloc: Global, n: &Network, delay: u64) -> Result<Option<Reach>, AllocError>
    requires sound { IsSound n.now }
    requires delay { delay < 2 ^ 40 }
    ensures { IfOk result (λ r. r ≡ run_reach n.now delay) }
{
    let all = reaches(alloc, n, Some(delay))?;
    Ok(earlier_if(delay, union_reach(&all)))
}

fn are_cut(reaches: &[Option<Reach>], inputs: &[u32]) -> bool
    ensures { result ≡ list_all (λ s. is_some (reach_numbered reaches.now s)) inputs.now }
{
    inputs.iter().all(|stream| reach_numbered(reaches, *stream as usize).is_some())
}

fn is_uncut(
    alloc: Global,
    n: &Network,
    delay: Option<u64>,
    reaches: &[Option<Reach>],
    at: u32,
) -> Result<bool, AllocError>
    requires sound { IsSound n.now }
    requires delay { IfSome delay (λ d. d < 2 ^ 40) }
    requires low { AreLow (2 ^ 59) reaches.now }
    ensures { IfOk result (λ b. b ≡ is_uncut n.now delay (reach_numbered reaches.now) at) }
{
    if !are_cut(reaches, inputs_of(&n.wires, at)) {
        return Ok(false);
    }
    Ok(port_reach(alloc, n, delay, reaches, at)?.is_none())
}

// The first box that is the reason, where these are the reaches of all streams.
fn uncut_among(
    alloc: Global,
    n: &Network,
    delay: Option<u64>,
    reaches: &[Option<Reach>],
) -> Result<Option<u32>, AllocError>
    requires sound { IsSound n.now }
    requires delay { IfSome delay (λ d. d < 2 ^ 40) }
    requires low { AreLow (2 ^ 59) reaches.now }
    ensures { IfOk result (λ o. o ≡ find (is_uncut n.now delay (reach_numbered reaches.now)) (numbers_to (length n.now.boxes))) }
{
    for at in 0..n.boxes.as_slice().len() as u32 {
        if is_uncut(alloc, n, delay, reaches, at)? {
            return Ok(Some(at));
        }
    }
    Ok(None)
}

/// The first box, by its number, that gives what can't be sliced, though what it takes can.
pub fn first_uncut(
    alloc: Global,
    n: &Network,
    delay: Option<u64>,
) -> Result<Option<u32>, AllocError>
    requires sound { IsSound n.now }
    requires delay { IfSome delay (λ d. d < 2 ^ 40) }
    ensures { IfOk result (λ o. o ≡ first_uncut n.now delay) }
{
    let all = reaches(alloc, n, delay)?;
    uncut_among(alloc, n, delay, &all)
}
