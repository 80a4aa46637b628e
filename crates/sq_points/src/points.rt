// The drop points of a network.
ghost use Rattle.std.specs.Prelude.{◌≡◌, IfOk, IfErr};
ghost use Rattle.sq_net.specs.SoundNetworks.{IsSound};
ghost use Rattle.sq_place.specs.Refusals.{NamesRefusal};
ghost use Rattle.sq_points.specs.Points.{window_in, windows_of, points_of};
ghost use Rattle.sq_points.specs.Limits.{KeepsDropLimits};

use sq_aggfn::WindowSpec;
use sq_net::{Body, Network};
use sq_place::{DropPoint, PlaceErr, drop_points};
use std::alloc::{AllocError, Global};

fn window_in(body: &Body) -> Option<WindowSpec>
    ensures { result ≡ window_in body.now }
{
    match body {
        Body::Aggregate { window, .. } => Some(*window),
        _ => None,
    }
}

fn windows_of(alloc: Global, n: &Network) -> Result<Vec<Option<WindowSpec>>, AllocError>
    ensures { IfOk result (λ v. v.items ≡ windows_of n.now) }
{
    let mut windows = Vec::new(alloc);
    for node in n.boxes.as_slice() {
        windows.push(window_in(&node.body))?;
    }
    Ok(windows)
}

/// The drop points of a sound network, by number, or the first whose batch is too long or whose extent is too wide.
#[tactic(auto, using(crate::proofs::Bounds::few_places, crate::proofs::Bounds::small_windows))]
pub fn network_points(alloc: Global, n: &Network) -> Result<Vec<DropPoint>, PlaceErr>
    requires { IsSound n.now }
    ensures points { IfOk result (λ v. v.items ≡ points_of n.now) }
    ensures limits { IfOk result (λ _. KeepsDropLimits n.now) }
    ensures refused { IfErr result (NamesRefusal (points_of n.now)) }
{
    let windows = windows_of(alloc, n)?;
    drop_points(alloc, &n.wires, &windows, n.batch)
}

/// The drop points of a network that keeps their limits, so only want of memory is left to refuse them.
pub fn points_in(alloc: Global, n: &Network) -> Result<Vec<DropPoint>, AllocError>
    requires sound { IsSound n.now }
    requires limits { KeepsDropLimits n.now }
    ensures { IfOk result (λ v. v.items ≡ points_of n.now) }
{
    match network_points(alloc, n) {
        Ok(points) => Ok(points),
        Err(PlaceErr::Memory) => Err(AllocError),
        Err(PlaceErr::LongBatch { .. }) => unreachable!(),
        Err(PlaceErr::WideExtent { .. }) => unreachable!(),
    }
}
