// The cuts of all streams, worked out in rounds: each round has what lies one box further.
ghost use Rattle.std.specs.Prelude.{◌≡◌, ◌<◌, ◌≤◌, ◌^◌, [], length, map, slice_get, IfOk};
ghost use Rattle.sq_words.specs.Lists.{numbers_to};
ghost use Rattle.sq_graph.specs.Wires.{inputs_of, producer_of};
ghost use Rattle.sq_net.specs.SoundNetworks.{IsSound};
ghost use Rattle.sq_net.specs.Streams.{columns_of_stream};
ghost use Rattle.sq_shard.specs.Cuts.{column_at};
ghost use Rattle.sq_shard.specs.Keys.{box_cut_at, cut_at, cut_given, cuts_of, input_widths, source_cut, width_at, width_of};
ghost use Rattle.sq_shard.specs.declared.Cut.TheVariants.{By};

use crate::Cut;
use crate::boxes::{box_cut, by_columns, cut_at, no_cut};
use sq_graph::{Producer, Wiring, given_by, stream_of};
use sq_net::Network;
use sq_value::Schema;
use std::alloc::{AllocError, Global};

fn schema_width(schema: &Schema) -> u32
    ensures width { result ≡ length schema.now }
    ensures few { result ≤ 16 }
{
    schema.names().len() as u32
}

// How many columns a stream has.
fn stream_width(n: &Network, stream: u32) -> u32
    requires { length n.now.wires.boxes < 2 ^ 32 }
    ensures width { result ≡ width_of (columns_of_stream n.now stream) }
    ensures few { result ≤ 16 }
{
    match given_by(&n.wires, stream) {
        None => 0,
        Some(Producer::Source { source }) => match n.sources.as_slice().get(source as usize) {
            None => 0,
            Some(source) => schema_width(&source.schema),
        },
        Some(Producer::Port { at, port }) => match n.boxes.as_slice().get(at as usize) {
            None => 0,
            Some(node) => match node.schemas.as_slice().get(port as usize) {
                None => 0,
                Some(schema) => schema_width(schema),
            },
        },
    }
}

fn input_width(n: &Network, inputs: &[u32], input: usize) -> u32
    requires { length n.now.wires.boxes < 2 ^ 32 }
    ensures width { result ≡ width_at n.now (slice_get inputs.now input) }
    ensures few { result ≤ 16 }
{
    match inputs.get(input) {
        None => 0,
        Some(stream) => stream_width(n, *stream),
    }
}

/// The streams that a box takes, or none where there is no box.
pub fn inputs_of(w: &Wiring, at: u32) -> &[u32]
    ensures { result.now ≡ inputs_of w.now at }
{
    match w.boxes.as_slice().get(at as usize) {
        None => &[],
        Some(b) => b.inputs.as_slice(),
    }
}

fn taken_cuts(alloc: Global, cuts: &[Cut], inputs: &[u32]) -> Result<Vec<Cut>, AllocError>
    ensures { IfOk result (λ v. v.items ≡ map (cut_at cuts.now) inputs.now) }
{
    let mut taken = Vec::new(alloc);
    for stream in inputs {
        taken.push(cut_at(alloc, cuts, *stream as usize)?)?;
    }
    Ok(taken)
}

fn source_cut(alloc: Global, by: &[Option<u32>], source: u32) -> Result<Cut, AllocError>
    ensures { IfOk result (λ c. c ≡ source_cut (column_at by.now source)) }
{
    match by.get(source as usize) {
        Some(Some(column)) => {
            let mut columns = Vec::new(alloc);
            columns.push(*column)?;
            Ok(by_columns(columns))
        }
        _ => Ok(Cut::Whole),
    }
}

pub(crate) fn port_cut(
    alloc: Global,
    n: &Network,
    on_time: bool,
    cuts: &[Cut],
    at: u32,
) -> Result<Cut, AllocError>
    requires sound { IsSound n.now }
    ensures { IfOk result (λ c. c ≡ box_cut_at on_time (slice_get n.now.boxes at) (input_widths n.now (inputs_of n.now.wires at)) (map (cut_at cuts.now) (inputs_of n.now.wires at))) }
{
    match n.boxes.as_slice().get(at as usize) {
        None => Ok(no_cut(alloc)),
        Some(node) => {
            let inputs = inputs_of(&n.wires, at);
            let widths = (input_width(n, inputs, 0), input_width(n, inputs, 1));
            let taken = taken_cuts(alloc, cuts, inputs)?;
            box_cut(alloc, on_time, &node.body, widths, &taken)
        }
    }
}

// The cut of a stream, where these are those of the streams that its box takes.
fn cut_given(
    alloc: Global,
    n: &Network,
    by: &[Option<u32>],
    on_time: bool,
    cuts: &[Cut],
    stream: u32,
) -> Result<Cut, AllocError>
    requires sound { IsSound n.now }
    ensures { IfOk result (λ c. c ≡ cut_given n.now by.now on_time (cut_at cuts.now) (producer_of n.now.wires stream)) }
{
    match given_by(&n.wires, stream) {
        None => Ok(no_cut(alloc)),
        Some(Producer::Source { source }) => source_cut(alloc, by, source),
        Some(Producer::Port { at, .. }) => port_cut(alloc, n, on_time, cuts, at),
    }
}

// One round: the cut of each stream by those that stand now.
fn next_cuts(
    alloc: Global,
    n: &Network,
    by: &[Option<u32>],
    on_time: bool,
    cuts: &[Cut],
    streams: u32,
) -> Result<Vec<Cut>, AllocError>
    requires sound { IsSound n.now }
    ensures { IfOk result (λ v. v.items ≡ map (λ s. cut_given n.now by.now on_time (cut_at cuts.now) (producer_of n.now.wires s)) (numbers_to streams)) }
{
    let mut next = Vec::new(alloc);
    for stream in 0..streams {
        next.push(cut_given(alloc, n, by, on_time, cuts, stream)?)?;
    }
    Ok(next)
}

fn no_cuts(alloc: Global, streams: u32) -> Result<Vec<Cut>, AllocError>
    ensures { IfOk result (λ v. v.items ≡ map (λ s. By []) (numbers_to streams)) }
{
    let mut cuts = Vec::new(alloc);
    for _stream in 0..streams {
        cuts.push(no_cut(alloc))?;
    }
    Ok(cuts)
}

/// What a part has of each stream, by number, where each source is cut by the column that is given for it, or is whole
/// where none is. `on_time` says that no BSort leaves out a tuple.
pub fn key_columns(
    alloc: Global,
    n: &Network,
    by: &[Option<u32>],
    on_time: bool,
) -> Result<Vec<Cut>, AllocError>
    requires sound { IsSound n.now }
    ensures { IfOk result (λ v. v.items ≡ cuts_of n.now by.now on_time) }
{
    let boxes = n.wires.boxes.as_slice().len() as u32;
    let streams = stream_of(&n.wires, boxes, 0);
    let mut cuts = no_cuts(alloc, streams)?;
    for _round in 0..boxes + 1 {
        cuts = next_cuts(alloc, n, by, on_time, &cuts, streams)?;
    }
    Ok(cuts)
}
