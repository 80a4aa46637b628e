//! The actors of a network in their seats.

ghost use Rattle.std.specs.Prelude.{◌≡◌, IfOk, map};
ghost use Rattle.sq_net.specs.SoundNetworks.{IsSound};
ghost use Rattle.sq_points.specs.Points.{points_of};
ghost use Rattle.sq_points.specs.Limits.{KeepsDropLimits};
ghost use Rattle.sq_flow.specs.Seats.{unfed};
ghost use Rattle.sq_core.specs.NewSeats.{none_fed, AreNewSeats};

use sq_actor::Actor;
use sq_flow::{FedItems, Seat};
use sq_net::Network;
use sq_oper::Tally;
use sq_place::DropPoint;
use sq_start::network_actors;
use std::alloc::{AllocError, Global};

/// Each actor in a seat, in which nothing was fed.
fn seats_of(alloc: Global, actors: Vec<Actor>) -> Result<Vec<Seat<Actor>>, AllocError>
    ensures { IfOk result (λ v. v.items ≡ map (λ a. record { op = a; tally = none_fed; fed = unfed }) actors.items) }
{
    let mut seats = Vec::new(alloc);
    for op in actors {
        seats.push(Seat {
            op,
            tally: Tally::new(),
            fed: FedItems::new(),
        })?;
    }
    Ok(seats)
}

/// A seat for each box, then for each window drop, and then for each output, in which nothing was fed.
pub(crate) fn network_seats(
    alloc: Global,
    n: &Network,
    points: &[DropPoint],
    seed: u64,
) -> Result<Vec<Seat<Actor>>, AllocError>
    requires sound { IsSound n.now }
    requires limits { KeepsDropLimits n.now }
    requires points { points.now ≡ points_of n.now }
    ensures { IfOk result (λ v. AreNewSeats n.now seed v.items) }
{
    let actors = network_actors(alloc, n, points, seed)?;
    seats_of(alloc, actors)
}
