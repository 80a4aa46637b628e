// What is worked out of a replay once.
ghost use Rattle.std.specs.Prelude.{◌≡◌, ℕ, ◌/◌, ◌<◌, ◌^◌, map, length, IfOk};
ghost use Rattle.std.specs.List.{All};
ghost use Rattle.sq_value.specs.Values.{IsStream};
ghost use Rattle.sq_net.specs.SoundNetworks.{IsSound};
ghost use Rattle.sq_points.specs.Limits.{KeepsDropLimits};
ghost use Rattle.sq_points.specs.Points.{points_of};
ghost use Rattle.sq_model.specs.GivenLevels.{LevelsAre};
ghost use Rattle.sq_model.specs.KnownStreams.{arc_in, stream_at_place, IsSafe, IsKnown};

use crate::arcs::copies;
use crate::epochs::levels_of;
use crate::streams::full_streams;
use sq_graph::arc_streams;
use sq_net::Network;
use sq_place::{DropAt, DropPoint};
use sq_plan::Capacities;
use sq_points::{network_planner, points_in};
use sq_road::Levels;
use sq_value::{Tuple, stream_in};
use std::alloc::{AllocError, Global};

/// The full streams of a replay, the stream of each arc, the drop points, the levels and the seed.
#[derive(Drop)]
pub(crate) struct Known {
    pub(crate) streams: Vec<Vec<Tuple>>,
    pub(crate) arcs: Vec<u32>,
    pub(crate) points: Vec<DropPoint>,
    pub(crate) levels: Levels,
    pub(crate) seed: u64,
}

fn levels_in(
    alloc: Global,
    n: &Network,
    sources: &[Vec<Tuple>],
    points: &Vec<DropPoint>,
    c: &Capacities,
) -> Result<Levels, AllocError>
    requires sound { IsSound n.now }
    requires points { points.now.items ≡ points_of n.now }
    ensures closed { IfOk result (λ l. 2 ^ 40 / l.epoch < l.closed) }
    ensures levels { IfOk result (λ l. (seed : ℕ) → LevelsAre l (record { network = n.now; sources = map (λ t. t.items) sources.now; entries = c.now; seed = seed })) }
{
    let mut planner = network_planner(alloc, n, points, c)?;
    let levels = levels_of(alloc, &mut planner, sources, n.epoch)?;
    Ok(levels)
}

/// What is known of a replay of these.
pub(crate) fn known_of(
    alloc: Global,
    n: &Network,
    sources: &[Vec<Tuple>],
    c: &Capacities,
    seed: u64,
) -> Result<Known, AllocError>
    requires sound { IsSound n.now }
    requires limits { KeepsDropLimits n.now }
    requires lists { length sources.now ≡ length n.now.sources }
    requires streams { All IsStream (map (λ t. t.items) sources.now) }
    ensures safe { IfOk result IsSafe }
    ensures known { IfOk result (λ k. IsKnown k (record { network = n.now; sources = map (λ t. t.items) sources.now; entries = c.now; seed = seed })) }
{
    let points = points_in(alloc, n)?;
    let levels = levels_in(alloc, n, sources, &points, c)?;
    Ok(Known {
        streams: full_streams(alloc, n, copies(alloc, sources)?)?,
        arcs: arc_streams(alloc, &n.wires)?,
        points,
        levels,
        seed,
    })
}

impl Known {
    /// The full stream of an arc.
    pub(crate) fn at_arc(&self, arc: u32) -> &[Tuple]
        ensures { result.now ≡ arc_in self.now arc }
    {
        match self.arcs.get(arc as usize) {
            Some(stream) => stream_in(&self.streams, *stream),
            None => &[],
        }
    }

    /// The full stream at a place.
    pub(crate) fn at_place(&self, at: DropAt) -> &[Tuple]
        ensures { result.now ≡ stream_at_place self.now at }
    {
        match at {
            DropAt::Stream(stream) => stream_in(&self.streams, stream),
            DropAt::Arc(arc) => self.at_arc(arc),
        }
    }
}
