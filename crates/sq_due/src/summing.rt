// The summary of a run that counted its lines.
ghost use Rattle.std.specs.Prelude.{◌≡◌, ◌≤◌, ◌++◌, IfErr, IfOk, OnOk, decimal, length};
ghost use Rattle.std.specs.List.{flat_map, zip};
ghost use Rattle.sq_words.specs.Lists.{numbers_to};
ghost use Rattle.sq_net.specs.declared.Node.{Node};
ghost use Rattle.sq_outside.specs.Sinks.{appended};
ghost use Rattle.sq_core.specs.Runs.{IsSoundEngine};
ghost use Rattle.sq_due.specs.Counting.{HasCounts, engine_summary};
ghost use Rattle.sq_due.specs.Summaries.{count_line, drop_count_line, fed_count, late_count, output_count};
ghost use Rattle.sq_due.specs.States.{sink_state};
ghost use Rattle.sq_due.specs.Writing.{LosesWhole};

use crate::counting::Counts;
use crate::writing::{count_fed, count_late};
use sq_core::Engine;
use sq_net::{Body, Node, Output};
use sq_outside::{Failed, Sink, write_all};
use sq_status::Status;
use std::alloc::{AllocError, Global};

/// Puts a line at the end: a word, what is counted, and how many there are.
fn put_count(
    alloc: Global,
    word: &str,
    name: &str,
    count: u64,
    text: &mut Vec<u8>,
) -> Result<(), AllocError>
    ensures { OnOk result (text.new.items ≡ text.old.items ++ count_line word.now name.now count) }
{
    let line = format!(in alloc; "{word},{name},{count}\n")?;
    text.extend_from_slice(line.as_str().as_bytes())
}

/// Puts the line of something that has a number at the end.
fn put_numbered(
    alloc: Global,
    word: &str,
    number: u64,
    count: u64,
    text: &mut Vec<u8>,
) -> Result<(), AllocError>
    ensures { OnOk result (text.new.items ≡ text.old.items ++ count_line word.now (decimal number) count) }
{
    let line = format!(in alloc; "{word},{number},{count}\n")?;
    text.extend_from_slice(line.as_str().as_bytes())
}

/// Puts how many lines each output has.
fn put_outputs(
    alloc: Global,
    outputs: &[Output],
    lines: &[u64],
    text: &mut Vec<u8>,
) -> Result<(), AllocError>
    requires even { length lines.now ≡ length outputs.now }
    ensures { OnOk result (text.new.items ≡ text.old.items ++ flat_map output_count (zip outputs.now lines.now)) }
{
    'outputs: for (i, output) in outputs.iter().enumerate() {
        put_count(alloc, "lines", output.name.as_str(), lines[i], text)?;
    }
    Ok(())
}

/// Puts how many batches each drop left out.
fn put_drops(alloc: Global, drops: &[u64], text: &mut Vec<u8>) -> Result<(), AllocError>
    ensures { OnOk result (text.new.items ≡ text.old.items ++ flat_map drop_count_line (zip (numbers_to (length drops.now)) drops.now)) }
{
    'drops: for (w, count) in drops.iter().enumerate() {
        put_numbered(alloc, "drops", w as u64, *count, text)?;
    }
    Ok(())
}

/// Puts how many tuples each box was fed.
fn put_fed(alloc: Global, boxes: &[Node], fed: &[u64], text: &mut Vec<u8>) -> Result<(), AllocError>
    requires even { length fed.now ≡ length boxes.now }
    ensures { OnOk result (text.new.items ≡ text.old.items ++ flat_map fed_count (zip boxes.now fed.now)) }
{
    'boxes: for (i, node) in boxes.iter().enumerate() {
        put_count(alloc, "fed", node.name.as_str(), fed[i], text)?;
    }
    Ok(())
}

/// Puts how many tuples of a box were late, which a BSort alone has.
fn put_late(alloc: Global, node: &Node, late: u64, text: &mut Vec<u8>) -> Result<(), AllocError>
    ensures { OnOk result (text.new.items ≡ text.old.items ++ late_count (node.now, late)) }
{
    match node.body {
        Body::BSort { .. } => put_count(alloc, "late", node.name.as_str(), late, text),
        _ => Ok(()),
    }
}

/// Puts how many tuples of each BSort were late.
fn put_lates(
    alloc: Global,
    boxes: &[Node],
    late: &[u64],
    text: &mut Vec<u8>,
) -> Result<(), AllocError>
    requires even { length late.now ≡ length boxes.now }
    ensures { OnOk result (text.new.items ≡ text.old.items ++ flat_map late_count (zip boxes.now late.now)) }
{
    'boxes: for (i, node) in boxes.iter().enumerate() {
        put_late(alloc, node, late[i], text)?;
    }
    Ok(())
}

/// The summary of a number's run, by what was counted and what the boxes of the engine were fed.
fn summary(
    alloc: Global,
    number: u64,
    rows: u32,
    engine: &Engine,
    counts: &Counts,
) -> Result<Vec<u8>, AllocError>
    requires sound { IsSoundEngine engine.now }
    requires room { HasCounts engine.now.network counts.now }
    ensures { IfOk result (λ text. text.items ≡ engine_summary number rows engine.now counts.now) }
{
    let fed = count_fed(alloc, engine)?;
    let late = count_late(alloc, engine)?;
    let boxes = engine.network.boxes.as_slice();
    let mut text = Vec::new(alloc);
    put_numbered(alloc, "gen", number, rows as u64, &mut text)?;
    put_outputs(
        alloc,
        engine.network.outputs.as_slice(),
        &counts.lines,
        &mut text,
    )?;
    put_drops(alloc, &counts.drops, &mut text)?;
    put_fed(alloc, boxes, &fed, &mut text)?;
    put_lates(alloc, boxes, &late, &mut text)?;
    text.extend_from_slice(b"end\n")?;
    Ok(text)
}

/// Writes the summary of a number's run: all of it at once, when it is whole.
pub fn write_summary<S: Sink>(
    alloc: Global,
    number: u64,
    rows: u32,
    engine: &Engine,
    counts: &Counts,
    out: &mut S,
) -> Result<(), Status>
    requires sound { IsSoundEngine engine.now }
    requires room { HasCounts engine.now.network counts.now }
    ensures ok { OnOk result (S.written out.new ≡ appended (S.written out.old) (engine_summary number rows engine.now counts.now)) }
    ensures err { IfErr result (LosesWhole (sink_state S.Sink out.old) (sink_state S.Sink out.new) (engine_summary number rows engine.now counts.now)) }
    ensures later { S.faults out.old ≤ S.faults out.new }
{
    let text = match summary(alloc, number, rows, engine, counts) {
        Ok(text) => text,
        Err(_) => return Err(Status::Memory),
    };
    match write_all(out, text.as_slice()) {
        Ok(()) => Ok(()),
        Err(Failed) => Err(Status::SinkFault),
    }
}
