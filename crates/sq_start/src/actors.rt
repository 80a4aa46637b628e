//! All operators of a network, new.

ghost use Rattle.std.specs.Prelude.{◌≡◌, ◌<◌, ℕ, IfOk, OnOk, length};
ghost use Rattle.sq_net.specs.SoundNetworks.{IsSound};
ghost use Rattle.sq_points.specs.Points.{points_of};
ghost use Rattle.sq_points.specs.Limits.{KeepsDropLimits};
ghost use Rattle.sq_below.specs.Actors.{Box, WindowDrop, OutputGate};
ghost use Rattle.sq_start.specs.Numbers.{ops_of, first_output};
ghost use Rattle.sq_start.specs.NewOperators.{IsStarted, AreStarted};

use crate::boxes::box_actor;
use crate::drops::{drop_actor, gate_actor};
use crate::told::{box_lags, length_above};
use sq_actor::Actor;
use sq_below::early_drop_is_sound;
use sq_net::Network;
use sq_place::DropPoint;
use std::alloc::{AllocError, Global};

/// Box `b`, new.
fn new_box(alloc: Global, n: &Network, points: &[DropPoint], b: u32) -> Result<Actor, AllocError>
    requires sound { IsSound n.now }
    requires points { points.now ≡ points_of n.now }
    requires there { b < length n.now.boxes }
    ensures { IfOk result (λ a. (seed : ℕ) → IsStarted n.now seed (Box b) a) }
{
    let (lags, marked) = box_lags(alloc, n, points, b)?;
    let actor = box_actor(alloc, &n.boxes.as_slice()[b as usize].body, lags, marked)?;
    Ok(actor)
}

/// Drop `w`, new.
fn new_drop(n: &Network, points: &[DropPoint], w: u32, seed: u64) -> Actor
    requires sound { IsSound n.now }
    requires limits { KeepsDropLimits n.now }
    requires points { points.now ≡ points_of n.now }
    requires there { w < length points.now }
    ensures { IsStarted n.now seed (WindowDrop w) result }
{
    early_drop_is_sound();
    drop_actor(w, &points[w as usize], n.epoch, seed)
}

/// Output `o`, new.
fn new_output(n: &Network, points: &[DropPoint], o: u32) -> Actor
    requires sound { IsSound n.now }
    requires limits { KeepsDropLimits n.now }
    requires points { points.now ≡ points_of n.now }
    ensures { (seed : ℕ) → IsStarted n.now seed (OutputGate o) result }
{
    early_drop_is_sound();
    gate_actor(length_above(points, o))
}

fn push_boxes(
    alloc: Global,
    n: &Network,
    points: &[DropPoint],
    actors: &mut Vec<Actor>,
) -> Result<(), AllocError>
    requires sound { IsSound n.now }
    requires points { points.now ≡ points_of n.now }
    requires first { length actors.old.items ≡ 0 }
    ensures count { OnOk result (length actors.new.items ≡ length n.now.boxes) }
    ensures started { OnOk result ((seed : ℕ) → AreStarted n.now seed actors.new.items) }
{
    for b in 0..n.boxes.as_slice().len() {
        actors.push(new_box(alloc, n, points, b as u32)?)?;
    }
    Ok(())
}

fn push_drops(
    n: &Network,
    points: &[DropPoint],
    seed: u64,
    actors: &mut Vec<Actor>,
) -> Result<(), AllocError>
    requires sound { IsSound n.now }
    requires limits { KeepsDropLimits n.now }
    requires points { points.now ≡ points_of n.now }
    requires boxes { length actors.old.items ≡ length n.now.boxes }
    requires started { AreStarted n.now seed actors.old.items }
    ensures count { OnOk result (length actors.new.items ≡ first_output n.now) }
    ensures started { OnOk result (AreStarted n.now seed actors.new.items) }
{
    for w in 0..points.len() {
        actors.push(new_drop(n, points, w as u32, seed))?;
    }
    Ok(())
}

fn push_outputs(
    n: &Network,
    points: &[DropPoint],
    actors: &mut Vec<Actor>,
) -> Result<(), AllocError>
    requires sound { IsSound n.now }
    requires limits { KeepsDropLimits n.now }
    requires points { points.now ≡ points_of n.now }
    requires drops { length actors.old.items ≡ first_output n.now }
    ensures count { OnOk result (length actors.new.items ≡ ops_of n.now) }
    ensures started { OnOk result ((seed : ℕ) → AreStarted n.now seed actors.old.items → AreStarted n.now seed actors.new.items) }
{
    for o in 0..n.wires.outputs.as_slice().len() {
        actors.push(new_output(n, points, o as u32))?;
    }
    Ok(())
}

/// All operators of a network, to which nothing was fed: its boxes, its window drops and its outputs, by number.
pub fn network_actors(
    alloc: Global,
    n: &Network,
    points: &[DropPoint],
    seed: u64,
) -> Result<Vec<Actor>, AllocError>
    requires sound { IsSound n.now }
    requires limits { KeepsDropLimits n.now }
    requires points { points.now ≡ points_of n.now }
    ensures count { IfOk result (λ v. length v.items ≡ ops_of n.now) }
    ensures started { IfOk result (λ v. AreStarted n.now seed v.items) }
{
    let mut actors = Vec::new(alloc);
    push_boxes(alloc, n, points, &mut actors)?;
    push_drops(n, points, seed, &mut actors)?;
    push_outputs(n, points, &mut actors)?;
    Ok(actors)
}
