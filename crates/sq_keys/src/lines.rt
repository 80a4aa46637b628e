// What is written of each output.
ghost use Rattle.std.specs.Prelude.{◌≡◌, ◌<◌, ◌^◌, ◌++◌, IfOk, OnOk, not, length, slice_index_or, []};
ghost use Rattle.std.specs.List.{flat_map};
ghost use Rattle.sq_net.specs.SoundNetworks.{IsSound};
ghost use Rattle.sq_shard.specs.Keys.{cut_at, is_known_cut};
ghost use Rattle.sq_keys.specs.Lines.{column_text, cut_text, is_lost, keys_text, loss_line, names_at, keys_line, output_lines, some_lost};

use sq_graph::{Producer, given_by};
use sq_net::{Network, Output};
use sq_shard::{Cut, first_loss, key_columns};
use sq_teller::put_box_line;
use sq_value::Name;
use std::alloc::{AllocError, Global};

// The names of the columns of a stream.
fn names_at(n: &Network, stream: u32) -> &[Name]
    requires few { length n.now.wires.boxes < 2 ^ 32 }
    ensures { result.now ≡ names_at n.now stream }
{
    match given_by(&n.wires, stream) {
        None => &[],
        Some(Producer::Source { source }) => match n.sources.as_slice().get(source as usize) {
            None => &[],
            Some(source) => source.schema.names(),
        },
        Some(Producer::Port { at, port }) => match n.boxes.as_slice().get(at as usize) {
            None => &[],
            Some(node) => match node.schemas.as_slice().get(port as usize) {
                None => &[],
                Some(schema) => schema.names(),
            },
        },
    }
}

fn name_at(names: &[Name], column: u32) -> &str
    ensures { result.now ≡ slice_index_or names.now column [] }
{
    match names.get(column as usize) {
        Some(name) => name.as_str(),
        None => "",
    }
}

fn put_columns(names: &[Name], columns: &[u32], text: &mut Vec<u8>) -> Result<(), AllocError>
    ensures { OnOk result (text.new.items ≡ text.old.items ++ flat_map (column_text names.now) columns.now) }
{
    for column in columns {
        text.extend_from_slice(b",")?;
        text.extend_from_slice(name_at(names, *column).as_bytes())?;
    }
    Ok(())
}

fn put_cut(names: &[Name], cut: &Cut, text: &mut Vec<u8>) -> Result<(), AllocError>
    ensures { OnOk result (text.new.items ≡ text.old.items ++ cut_text names.now cut.now) }
{
    match cut {
        Cut::Whole => text.extend_from_slice(b",whole")?,
        Cut::By { columns } => {
            if columns.as_slice().is_empty() {
                text.extend_from_slice(b",lost")?;
            } else {
                text.extend_from_slice(b",cut")?;
                put_columns(names, columns.as_slice(), text)?;
            }
        }
    }
    Ok(())
}

// What a part has of a stream, where these are the cuts of all streams.
fn put_cut_of(n: &Network, cuts: &[Cut], stream: u32, text: &mut Vec<u8>) -> Result<(), AllocError>
    requires few { length n.now.wires.boxes < 2 ^ 32 }
    ensures { OnOk result (text.new.items ≡ text.old.items ++ cut_text (names_at n.now stream) (cut_at cuts.now stream)) }
{
    match cuts.get(stream as usize) {
        Some(cut) => put_cut(names_at(n, stream), cut, text),
        None => {
            text.extend_from_slice(b",lost")?;
            Ok(())
        }
    }
}

fn put_output(
    n: &Network,
    cuts: &[Cut],
    output: &Output,
    stream: u32,
    text: &mut Vec<u8>,
) -> Result<(), AllocError>
    requires few { length n.now.wires.boxes < 2 ^ 32 }
    ensures { OnOk result (text.new.items ≡ text.old.items ++ keys_line n.now cuts.now output.now stream) }
{
    text.extend_from_slice(output.name.as_str().as_bytes())?;
    put_cut_of(n, cuts, stream, text)?;
    text.extend_from_slice(b"\n")?;
    Ok(())
}

fn put_outputs(
    n: &Network,
    cuts: &[Cut],
    outputs: &[Output],
    streams: &[u32],
    text: &mut Vec<u8>,
) -> Result<(), AllocError>
    requires few { length n.now.wires.boxes < 2 ^ 32 }
    ensures { OnOk result (text.new.items ≡ text.old.items ++ output_lines n.now cuts.now outputs.now streams.now) }
{
    for (i, output) in outputs.iter().enumerate() {
        match streams.get(i) {
            Some(stream) => put_output(n, cuts, output, *stream, text)?,
            None => return Ok(()),
        }
    }
    Ok(())
}

fn is_stream_lost(cuts: &[Cut], stream: u32) -> bool
    ensures { result ≡ not (is_known_cut (cut_at cuts.now stream)) }
{
    match cuts.get(stream as usize) {
        Some(Cut::Whole) => false,
        Some(Cut::By { columns }) => columns.as_slice().is_empty(),
        None => true,
    }
}

fn some_lost(cuts: &[Cut], streams: &[u32]) -> bool
    ensures { result ≡ some_lost cuts.now streams.now }
{
    streams.iter().any(|stream| is_stream_lost(cuts, *stream))
}

// The line of the first box that loses the key.
fn put_loss(
    alloc: Global,
    n: &Network,
    on_time: bool,
    cuts: &[Cut],
    text: &mut Vec<u8>,
) -> Result<(), AllocError>
    requires sound { IsSound n.now }
    ensures { OnOk result (text.new.items ≡ text.old.items ++ loss_line n.now on_time cuts.now) }
{
    let at = first_loss(alloc, n, on_time, cuts)?;
    put_box_line("@loses", n, at, text)
}

/// A line for each output, and where one is lost the line of the first box that loses the key; and whether one is lost.
pub fn keys_text(
    alloc: Global,
    n: &Network,
    by: &[Option<u32>],
    on_time: bool,
) -> Result<(Vec<u8>, bool), AllocError>
    requires sound { IsSound n.now }
    ensures text { IfOk result (λ r. r.0.items ≡ keys_text n.now by.now on_time) }
    ensures lost { IfOk result (λ r. r.1 ≡ is_lost n.now by.now on_time) }
{
    let cuts = key_columns(alloc, n, by, on_time)?;
    let streams = n.wires.outputs.as_slice();
    let lost = some_lost(&cuts, streams);
    let mut text = Vec::new(alloc);
    put_outputs(n, &cuts, n.outputs.as_slice(), streams, &mut text)?;
    if lost {
        put_loss(alloc, n, on_time, &cuts, &mut text)?;
    }
    Ok((text, lost))
}
