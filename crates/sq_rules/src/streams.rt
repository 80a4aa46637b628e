// The streams by name and number, and the wiring.
ghost use Rattle.std.specs.Prelude.{◌≡◌, ◌+◌, ◌<◌, ◌≤◌, ◌^◌, ◌++◌, ℕ, List, true, None, IfOk, OnOk, IfSome, length, map};
ghost use Rattle.std.specs.List.{flat_map, filter_map, list_all};
ghost use Rattle.sq_words.specs.Lists.{numbers_to};
ghost use Rattle.sq_rules.specs.Limits.{told_body_within, box_within, first_failing, limit_place};
ghost use Rattle.sq_tables.specs.Places.{place_at};
ghost use Rattle.sq_tables.specs.Shapes.{port_count};
ghost use Rattle.sq_rules.specs.Streaming.{also_numbered, box_wires, is_stream, kind_of_told_body, number_named, told_port_names, told_stream_named, told_stream_names, unknown_among, unknown_in_boxes, wiring_by};
ghost use Rattle.sq_net.specs.Names.{port_name};

use crate::names::source_names;
use crate::places::{part_place, place_at};
use indexmap::IndexMap;
use sq_graph::{BoxKind, BoxWires, Wiring};
use sq_net::{Part, Place};
use sq_tables::{BodyTable, BoxTable, NetworkTable, OutputTable, port_count};
use sq_value::{ListOf, Name, copy_name};
use std::alloc::{AllocError, Global};

fn port_name(alloc: Global, name: &Name, number: usize) -> Result<Name, AllocError>
    ensures { IfOk result (λ n. n ≡ port_name name.now number) }
{
    let name = name.as_str();
    let text = format!(in alloc; "{name}.{number}")?;
    Name::new(alloc, text.as_str())
}

fn push_filter_ports(
    alloc: Global,
    names: &mut Vec<Name>,
    name: &Name,
    ports: usize,
) -> Result<(), AllocError>
    requires { ports < 2 ^ 32 }
    ensures { OnOk result (names.new.items ≡ names.old.items ++ map (λ i. port_name name.now (i + 1)) (numbers_to ports)) }
{
    for port in 0..ports {
        names.push(port_name(alloc, name, port + 1)?)?;
    }
    Ok(())
}

#[tactic(auto, using(crate::proofs::LimitLemmas::ports_few))]
fn push_ports(alloc: Global, names: &mut Vec<Name>, b: &BoxTable) -> Result<(), AllocError>
    requires { told_body_within b.now.body ≡ true }
    ensures { OnOk result (names.new.items ≡ names.old.items ++ told_port_names b.now.name b.now.body) }
{
    match &b.body {
        BodyTable::Filter { preds } => {
            push_filter_ports(alloc, names, &b.name, preds.as_slice().len() + 1)
        }
        BodyTable::Map { .. }
        | BodyTable::Union
        | BodyTable::BSort { .. }
        | BodyTable::Aggregate { .. }
        | BodyTable::Join { .. }
        | BodyTable::Resample { .. } => Ok(names.push(copy_name(&b.name)?)?),
    }
}

fn push_all_ports(
    alloc: Global,
    names: &mut Vec<Name>,
    boxes: &[BoxTable],
) -> Result<(), AllocError>
    requires { list_all box_within boxes.now ≡ true }
    ensures { OnOk result (names.new.items ≡ names.old.items ++ flat_map (λ b. told_port_names b.name b.body) boxes.now) }
{
    for b in boxes {
        push_ports(alloc, names, b)?;
    }
    Ok(())
}

/// The names of the streams, by number.
#[tactic(auto, using(crate::proofs::LimitLemmas::counts_of, crate::proofs::WiringLemmas::streams_few))]
pub(crate) fn told_stream_names(alloc: Global, raw: &NetworkTable) -> Result<Vec<Name>, AllocError>
    requires within { limit_place raw.now ≡ None }
    ensures names { IfOk result (λ v. v.items ≡ told_stream_names raw.now) }
    ensures few { IfOk result (λ v. length v.items < 2 ^ 32) }
{
    let mut names = source_names(alloc, raw.sources.as_slice())?;
    push_all_ports(alloc, &mut names, raw.boxes.as_slice())?;
    Ok(names)
}

fn add_number<'a>(
    numbers: &mut IndexMap<&'a str, u32>,
    name: &'a str,
    number: u32,
) -> Result<(), AllocError>
    ensures { OnOk result ((w : List ℕ) → number_named numbers.new.entries w ≡ also_numbered (number_named numbers.old.entries) name.now number w) }
{
    if numbers.contains_key(name) {
        return Ok(());
    }
    numbers.insert(name, number)?;
    Ok(())
}

/// The number of each name: the place where it stands first.
pub(crate) fn numbers_of<'a>(
    alloc: Global,
    names: &'a [Name],
) -> Result<IndexMap<&'a str, u32>, AllocError>
    requires { length names.now < 2 ^ 32 }
    ensures { IfOk result (λ m. number_named m.entries ≡ told_stream_named names.now) }
{
    let mut numbers = IndexMap::new(alloc);
    for (number, name) in names.iter().enumerate() {
        add_number(&mut numbers, name.as_str(), number as u32)?;
    }
    Ok(numbers)
}

fn number_of(numbers: &IndexMap<&str, u32>, name: &str) -> Option<u32>
    ensures { result ≡ number_named numbers.now.entries name.now }
{
    numbers.get(name).copied()
}

fn is_stream(numbers: &IndexMap<&str, u32>, name: &str) -> bool
    ensures { result ≡ is_stream (number_named numbers.now.entries) name.now }
{
    number_of(numbers, name).is_some()
}

fn unknown_input(numbers: &IndexMap<&str, u32>, ins: &[Name]) -> Option<usize>
    ensures first { result ≡ first_failing (is_stream (number_named numbers.now.entries)) ins.now }
    ensures within { IfSome result (λ i. i < length ins.now) }
{
    ins.iter()
        .position(|name| !is_stream(numbers, name.as_str()))
}

fn unknown_output(numbers: &IndexMap<&str, u32>, outputs: &[OutputTable]) -> Option<usize>
    ensures { result ≡ first_failing (λ o. is_stream (number_named numbers.now.entries) o.from) outputs.now }
{
    outputs
        .iter()
        .position(|output| !is_stream(numbers, output.from.as_str()))
}

fn unknown_in_boxes(numbers: &IndexMap<&str, u32>, boxes: &[BoxTable]) -> Option<Place>
    requires boxes { length boxes.now ≤ 128 }
    requires within { list_all box_within boxes.now ≡ true }
    ensures { result ≡ unknown_in_boxes (number_named numbers.now.entries) 0 boxes.now }
{
    for (number, b) in boxes.iter().enumerate() {
        if let Some(item) = unknown_input(numbers, b.ins.as_slice()) {
            return Some(place_at(Part::Box, number, item));
        }
    }
    None
}

/// The first place that names no stream.
#[tactic(auto, using(crate::proofs::LimitLemmas::counts_of))]
pub(crate) fn unknown_place(numbers: &IndexMap<&str, u32>, raw: &NetworkTable) -> Option<Place>
    requires within { limit_place raw.now ≡ None }
    ensures { result ≡ unknown_among (number_named numbers.now.entries) raw.now }
{
    if let Some(place) = unknown_in_boxes(numbers, raw.boxes.as_slice()) {
        return Some(place);
    }
    match unknown_output(numbers, raw.outputs.as_slice()) {
        Some(number) => Some(part_place(Part::Output, number)),
        None => None,
    }
}

fn inputs_of(
    alloc: Global,
    numbers: &IndexMap<&str, u32>,
    ins: &[Name],
) -> Result<Vec<u32>, AllocError>
    ensures { IfOk result (λ v. v.items ≡ filter_map (number_named numbers.now.entries) ins.now) }
{
    ins.iter()
        .filter_map(|name| number_of(numbers, name.as_str()))
        .collect(alloc)
}

fn outputs_of(
    alloc: Global,
    numbers: &IndexMap<&str, u32>,
    outputs: &[OutputTable],
) -> Result<Vec<u32>, AllocError>
    ensures { IfOk result (λ v. v.items ≡ filter_map (λ o. number_named numbers.now.entries o.from) outputs.now) }
{
    outputs
        .iter()
        .filter_map(|output| number_of(numbers, output.from.as_str()))
        .collect(alloc)
}

fn kind_of(body: &BodyTable) -> BoxKind
    ensures { result ≡ kind_of_told_body body.now }
{
    match body {
        BodyTable::Filter { .. } => BoxKind::Filter,
        BodyTable::Map { .. } => BoxKind::Map,
        BodyTable::Union => BoxKind::Union,
        BodyTable::BSort { .. } => BoxKind::BSort,
        BodyTable::Aggregate { .. } => BoxKind::Aggregate,
        BodyTable::Join { .. } => BoxKind::Join,
        BodyTable::Resample { .. } => BoxKind::Resample,
    }
}

#[tactic(auto, using(crate::proofs::LimitLemmas::ports_few))]
fn box_wires(
    alloc: Global,
    numbers: &IndexMap<&str, u32>,
    b: &BoxTable,
) -> Result<BoxWires, AllocError>
    requires { told_body_within b.now.body ≡ true }
    ensures { IfOk result (λ w. w ≡ box_wires (number_named numbers.now.entries) b.now) }
{
    let inputs = inputs_of(alloc, numbers, b.ins.as_slice())?;
    Ok(BoxWires {
        kind: kind_of(&b.body),
        inputs: ListOf::new(inputs),
        ports: port_count(&b.body) as u32,
    })
}

fn boxes_wired(
    alloc: Global,
    numbers: &IndexMap<&str, u32>,
    boxes: &[BoxTable],
) -> Result<Vec<BoxWires>, AllocError>
    requires { list_all box_within boxes.now ≡ true }
    ensures { IfOk result (λ v. v.items ≡ map (box_wires (number_named numbers.now.entries)) boxes.now) }
{
    let mut wired = Vec::new(alloc);
    for b in boxes {
        wired.push(box_wires(alloc, numbers, b)?)?;
    }
    Ok(wired)
}

/// The wiring, by the numbers of the streams.
#[tactic(auto, using(crate::proofs::LimitLemmas::counts_of))]
pub(crate) fn wiring(
    alloc: Global,
    numbers: &IndexMap<&str, u32>,
    raw: &NetworkTable,
) -> Result<Wiring, AllocError>
    requires within { limit_place raw.now ≡ None }
    ensures { IfOk result (λ w. w ≡ wiring_by (number_named numbers.now.entries) raw.now) }
{
    let boxes = boxes_wired(alloc, numbers, raw.boxes.as_slice())?;
    let outputs = outputs_of(alloc, numbers, raw.outputs.as_slice())?;
    Ok(Wiring {
        sources: raw.sources.as_slice().len() as u32,
        boxes: ListOf::new(boxes),
        outputs: ListOf::new(outputs),
    })
}
