// The rules that need columns, behind those that need none, and the network.
ghost use Rattle.std.specs.Prelude.{◌≡◌, ◌<◌, None, IfOk};
ghost use Rattle.std.specs.List.{filter_map};
ghost use Rattle.sq_graph.specs.Order.{order_of};
ghost use Rattle.sq_rules.specs.Limits.{limit_place};
ghost use Rattle.sq_reader.specs.Networks.{graphed_network, typed_network};
ghost use Rattle.sq_tables.specs.Refusals.{IsAnswerOf};
ghost use Rattle.sq_rules.specs.Streaming.{unknown_place, wiring_of};

use crate::bodies::natural;
use crate::nodes::nodes_in;
use crate::outputs::outputs_in;
use crate::sources::sources_in;
use sq_graph::Wiring;
use sq_net::{NetErr, Network, Node};
use sq_rules::{Wired, wired_tables};
use sq_tables::NetworkTable;
use sq_value::ListOf;
use std::alloc::{AllocError, Global};

fn known(alloc: Global, nodes: Vec<Option<Node>>) -> Result<Vec<Node>, AllocError>
    ensures { IfOk result (λ v. v.items ≡ filter_map (λ o. o) nodes.items) }
{
    nodes.into_iter().filter_map(|node| node).collect(alloc)
}

#[tactic(auto, using(sq_rules::proofs::LimitLemmas::counts_of))]
fn graphed_network(
    alloc: Global,
    raw: &NetworkTable,
    wires: Wiring,
    order: &[u32],
) -> Result<Network, NetErr>
    requires within { limit_place raw.now ≡ None }
    requires known { unknown_place raw.now ≡ None }
    requires wires { wires ≡ wiring_of raw.now }
    requires ordered { order.now ≡ order_of wires }
    ensures { IsAnswerOf result (graphed_network raw.now wires) }
{
    let outputs = outputs_in(alloc, raw.outputs.as_slice())?;
    let sources = sources_in(alloc, raw.sources.as_slice())?;
    let nodes = nodes_in(alloc, raw, &wires, &sources, order)?;
    let boxes = known(alloc, nodes)?;
    Ok(Network {
        epoch: natural(raw.epoch),
        batch: natural(raw.batch),
        wires,
        sources: ListOf::new(sources),
        boxes: ListOf::new(boxes),
        outputs: ListOf::new(outputs),
    })
}

/// The network of a file's tables, or the first broken rule.
pub(crate) fn typed_network(alloc: Global, raw: &NetworkTable) -> Result<Network, NetErr>
    ensures { IsAnswerOf result (typed_network raw.now) }
{
    let Wired { wires, order } = wired_tables(alloc, raw)?;
    graphed_network(alloc, raw, wires, order.as_slice())
}
