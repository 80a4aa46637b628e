// The boxes in their order, each typed on what it takes.
ghost use Rattle.std.specs.Prelude.{◌≡◌, ◌<◌, ◌^◌, true, false, Ok, Err, IfOk, IfErr, Some, None, length, map, slice_get, slice_set};
ghost use Rattle.sq_graph.specs.Order.{order_of};
ghost use Rattle.sq_graph.specs.Wires.{inputs_of};
ghost use Rattle.sq_net.specs.SoundNetworks.{takes_within};
ghost use Rattle.sq_reader.specs.Columns.{columns_taken, nat_of, no_nodes, typed_node, node_in, nodes_from};
ghost use Rattle.sq_rules.specs.Limits.{box_within, limit_place};
ghost use Rattle.sq_rules.specs.Streaming.{kind_of_told_body, unknown_place, wiring_of};
ghost use Rattle.sq_tables.specs.declared.tables.BoxTable.{BoxTable};
ghost use Rattle.sq_tables.specs.Refusals.{IsAnswerOf, is_memory};

use crate::bodies::{natural, typed_body};
use crate::boxes::schemas_taken;
use sq_graph::Wiring;
use sq_net::{NetErr, Node, Source};
use sq_tables::{BoxTable, NetworkTable};
use sq_value::{ListOf, Schema, copy_name};
use std::alloc::{AllocError, Global};

fn naturals(alloc: Global, numbers: &[i64]) -> Result<Vec<u64>, AllocError>
    ensures { IfOk result (λ v. v.items ≡ map nat_of numbers.now) }
{
    let mut found = Vec::new(alloc);
    for number in numbers {
        found.push(natural(*number))?;
    }
    Ok(found)
}

#[tactic(auto, using(sq_rules::proofs::LimitLemmas::box_of))]
fn node_in(alloc: Global, number: usize, b: &BoxTable, ins: &[Schema]) -> Result<Node, NetErr>
    requires number { number < 2 ^ 32 }
    requires within { box_within b.now ≡ true }
    requires takes { takes_within (kind_of_told_body b.now.body) (length ins.now) ≡ true }
    ensures { IsAnswerOf result (node_in number b.now ins.now) }
{
    let (body, schemas) = typed_body(alloc, number, &b.body, ins)?;
    let name = copy_name(&b.name)?;
    let selectivity = naturals(alloc, b.selectivity.as_slice())?;
    Ok(Node {
        name,
        body,
        schemas: ListOf::new(schemas),
        cost: natural(b.cost),
        selectivity: ListOf::new(selectivity),
    })
}

fn no_nodes(alloc: Global, count: usize) -> Result<Vec<Option<Node>>, AllocError>
    ensures { IfOk result (λ v. v.items ≡ no_nodes count) }
{
    let mut nodes = Vec::new(alloc);
    for _at in 0..count {
        nodes.push(None)?;
    }
    Ok(nodes)
}

fn typed_node(
    alloc: Global,
    raw: &NetworkTable,
    w: &Wiring,
    sources: &[Source],
    nodes: &[Option<Node>],
    at: usize,
) -> Result<Node, NetErr>
    requires within { limit_place raw.now ≡ None }
    requires wires { w.now ≡ wiring_of raw.now }
    requires there { at < length raw.now.boxes }
    requires takes { (b : BoxTable) → slice_get raw.now.boxes at ≡ Some b → takes_within (kind_of_told_body b.body) (length (columns_taken w.now sources.now nodes.now (inputs_of w.now at))) ≡ true }
    ensures { IsAnswerOf result (typed_node raw.now w.now sources.now nodes.now at) }
{
    let b = &raw.boxes.as_slice()[at];
    let wires = &w.boxes.as_slice()[at];
    let ins = schemas_taken(alloc, w, sources, nodes, wires.inputs.as_slice())?;
    node_in(alloc, at, b, &ins)
}

fn put(nodes: &mut Vec<Option<Node>>, at: usize, node: Node)
    ensures { nodes.new.items ≡ slice_set nodes.old.items at (Some node) }
{
    if at < nodes.len() {
        nodes[at] = Some(node);
    }
}

/// The boxes, put at their places in this order, or the first that can't be typed.
pub(crate) fn nodes_in(
    alloc: Global,
    raw: &NetworkTable,
    w: &Wiring,
    sources: &[Source],
    order: &[u32],
) -> Result<Vec<Option<Node>>, NetErr>
    requires within { limit_place raw.now ≡ None }
    requires known { unknown_place raw.now ≡ None }
    requires wires { w.now ≡ wiring_of raw.now }
    requires given { length sources.now ≡ length raw.now.sources }
    requires ordered { order.now ≡ order_of w.now }
    ensures ok { IfOk result (λ v. nodes_from raw.now w.now sources.now (no_nodes (length raw.now.boxes)) order.now ≡ Ok v.items) }
    ensures err { IfErr result (λ e. is_memory e ≡ false → nodes_from raw.now w.now sources.now (no_nodes (length raw.now.boxes)) order.now ≡ Err e) }
{
    let mut nodes = no_nodes(alloc, raw.boxes.as_slice().len())?;
    for at in order {
        let node = match typed_node(alloc, raw, w, sources, &nodes, *at as usize) {
            Ok(node) => node,
            Err(e) => return Err(e),
        };
        put(&mut nodes, *at as usize, node);
    }
    Ok(nodes)
}
