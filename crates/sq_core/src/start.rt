//! The engine over the operators of a network, to which nothing was fed.

ghost use Rattle.std.specs.Prelude.{◌≡◌, IfOk, None, length, map, replicate};
ghost use Rattle.sq_core.specs.Runs.{AreReplayParts, IsNewEngine};

use crate::network::network_wires;
use crate::seated::network_seats;
use sq_actor::Actor;
use sq_below::early_drop_is_sound;
use sq_flow::Engine;
use sq_net::Network;
use sq_plan::Capacities;
use sq_points::{network_planner, points_in};
use sq_replay::Stream;
use sq_road::Levels;
use sq_start::{arcs_may_come, starts_as_replayed};
use sq_value::Tuple;
use std::alloc::{AllocError, Global};

/// What each source recorded, to be released a tuple at a time.
pub(crate) fn queued(alloc: Global, sources: Vec<Vec<Tuple>>) -> Result<Vec<Stream>, AllocError>
    ensures { IfOk result (λ streams. map (λ s. s.items) streams.items ≡ map (λ v. v.items) sources.items) }
{
    let mut streams = Vec::new(alloc);
    for source in sources {
        streams.push(Stream::listed(alloc, source))?;
    }
    Ok(streams)
}

/// No more comes of any source than is known.
pub(crate) fn none_ahead(
    alloc: Global,
    sources: &Vec<Stream>,
) -> Result<Vec<Option<u64>>, AllocError>
    ensures { IfOk result (λ ahead. ahead.items ≡ replicate (length sources.now.items) None) }
{
    vec![in alloc; None; sources.len()]
}

/// An engine over the boxes, window drops and outputs of a sound network, to which nothing was fed, and which has released
/// nothing of what the sources recorded.
pub(crate) fn network_engine(
    alloc: Global,
    n: &Network,
    sources: Vec<Stream>,
    ahead: Vec<Option<u64>>,
    capacities: &Capacities,
    seed: u64,
    frames: u32,
) -> Result<Engine<Actor>, AllocError>
    requires parts { AreReplayParts n.now (map (λ v. v.items) sources.items) frames }
    requires known { ahead.items ≡ replicate (length sources.items) None }
    ensures { IfOk result (λ e. IsNewEngine (record { network = n.now; sources = map (λ v. v.items) sources.items; entries = capacities.now; seed = seed }) frames
        (record { network = n.now; engine = e })) }
{
    early_drop_is_sound();
    starts_as_replayed();
    arcs_may_come();
    let points = points_in(alloc, n)?;
    let wires = network_wires(alloc, n, &points)?;
    let seats = network_seats(alloc, n, &points, seed)?;
    let planner = network_planner(alloc, n, &points, capacities)?;
    let levels = Levels::new(alloc, n.epoch);
    let engine = Engine::new(alloc, wires, seats, sources, ahead, planner, levels, frames)?;
    Ok(engine)
}
