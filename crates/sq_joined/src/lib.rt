//! The joined network of a query and a stream of a network, made of what stays.
//!
//! Which boxes stay is given. The contracts promise that those stand in their order and with their streams, behind them a
//! Filter on the stream that lets pass what comes from a tick on, and behind it the query's boxes, its source taken from the
//! Filter: exactly the network of the definition. What that network means, and when a query may be joined, is said and
//! proved above. Below stand the typed network of `sq_net` and its streams.
#![tactic(auto)]

ghost use Rattle.std.specs.Prelude.{◌≡◌, ◌<◌, ◌^◌, true, length, IfOk};
ghost use Rattle.sq_graph.specs.Order.{is_there};
ghost use Rattle.sq_graph.specs.Wires.{producer_of};
ghost use Rattle.sq_net.specs.SoundNetworks.{IsSound};
ghost use Rattle.sq_joined.specs.Joining.{joined_by};

mod boxes;
mod wires;

use boxes::{joined_boxes, tap_box};
use sq_net::Network;
use sq_value::ListOf;
use std::alloc::{AllocError, Global};
use wires::joined_wires;
pub use wires::{boxes_staying, is_set};

/// The joined network, where the boxes stay for which `keep` says so.
pub fn join_kept(
    alloc: Global,
    n: Network,
    keep: &[bool],
    stream: u32,
    from: u64,
    q: Network,
) -> Result<Network, AllocError>
    requires plain { IsSound n }
    requires asked { IsSound q }
    requires there { is_there (producer_of n.wires stream) ≡ true }
    requires first { is_there (producer_of q.wires 0) ≡ true }
    requires tick { from < 2 ^ 40 }
    requires count { length keep.now ≡ length n.wires.boxes }
    ensures { IfOk result (λ net. net ≡ joined_by n keep.now stream from q) }
{
    let wires = joined_wires(alloc, &n.wires, keep, stream, &q.wires)?;
    let tap = tap_box(alloc, n.stream_schema(stream), q.stream_schema(0), from)?;
    let epoch = n.epoch;
    let (sources, boxes, _outputs) = n.into_parts();
    let (_sources, asked, outputs) = q.into_parts();
    let boxes = joined_boxes(alloc, boxes.into_vec(), keep, tap, asked.into_vec())?;
    Ok(Network {
        epoch,
        batch: 1,
        wires,
        sources,
        boxes: ListOf::new(boxes),
        outputs,
    })
}
