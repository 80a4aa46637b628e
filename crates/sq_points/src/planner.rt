// The planner of a network.
ghost use Rattle.std.specs.Prelude.{◌≡◌, ◌≤◌, ◌<◌, ◌*◌, length, map, IfOk};
ghost use Rattle.std.specs.List.{All, sum_by};
ghost use Rattle.sq_net.specs.SoundNetworks.{IsSound};
ghost use Rattle.sq_points.specs.Points.{tolls_of, points_of, losses_below, setting_of};
ghost use Rattle.sq_points.specs.Losses.{loss_table, loss_in, losses_in, most_lost, AreFalls};

use sq_net::{Network, Node};
use sq_place::DropPoint;
use sq_plan::{Capacities, Planner, Toll};
use sq_value::ListOf;
use std::alloc::{AllocError, Global};

fn toll_of(alloc: Global, node: &Node) -> Result<Toll, AllocError>
    ensures { IfOk result (λ t. t ≡ record { cost = node.now.cost; selectivity = node.now.selectivity }) }
{
    Ok(Toll {
        cost: node.cost,
        selectivity: ListOf::new(Vec::from_slice(alloc, node.selectivity.as_slice())?),
    })
}

fn tolls_of(alloc: Global, n: &Network) -> Result<Vec<Toll>, AllocError>
    ensures { IfOk result (λ v. v.items ≡ tolls_of n.now) }
{
    let mut tolls = Vec::new(alloc);
    for node in n.boxes.as_slice() {
        tolls.push(toll_of(alloc, node)?)?;
    }
    Ok(tolls)
}

// What each output loses by each step.
fn loss_table(alloc: Global, n: &Network) -> Result<Vec<[u128; 20]>, AllocError>
    requires { All (λ o. o.weight ≤ 1000) n.now.outputs }
    ensures table { IfOk result (λ v. v.items ≡ loss_table n.now) }
    ensures falls { IfOk result (λ v. AreFalls v.items) }
{
    let mut table = Vec::new(alloc);
    for output in n.outputs.as_slice() {
        table.push(output.graph.loss_steps(output.weight))?;
    }
    Ok(table)
}

fn loss_in(table: &[[u128; 20]], step: usize, output: u32) -> u128
    requires there { step < 20 }
    requires falls { AreFalls table.now }
    ensures loss { result ≡ loss_in table.now step output }
    ensures low { result ≤ most_lost }
{
    match table.get(output as usize) {
        Some(losses) => losses[step],
        None => 0,
    }
}

fn loss_below(table: &[[u128; 20]], step: usize, outputs: &[u32]) -> u128
    requires there { step < 20 }
    requires falls { AreFalls table.now }
    ensures sum { result ≡ sum_by (loss_in table.now step) outputs.now }
    ensures low { result ≤ length outputs.now * most_lost }
{
    let mut sum = 0;
    for output in outputs {
        sum += loss_in(table, step, *output);
    }
    sum
}

fn losses_below(table: &[[u128; 20]], outputs: &[u32]) -> [u128; 20]
    requires { AreFalls table.now }
    ensures { result ≡ losses_in table.now outputs.now }
{
    let mut losses = [0; 20];
    for step in 0..20 {
        losses[step] = loss_below(table, step, outputs);
    }
    losses
}

fn losses_of(
    alloc: Global,
    table: &[[u128; 20]],
    points: &[DropPoint],
) -> Result<Vec<[u128; 20]>, AllocError>
    requires { AreFalls table.now }
    ensures { IfOk result (λ v. v.items ≡ map (λ p. losses_in table.now p.outputs) points.now) }
{
    let mut losses = Vec::new(alloc);
    for point in points {
        losses.push(losses_below(table, point.outputs.as_slice()))?;
    }
    Ok(losses)
}

/// The planner of a sound network, where these are its drop points.
pub fn network_planner(
    alloc: Global,
    n: &Network,
    points: &Vec<DropPoint>,
    capacities: &Capacities,
) -> Result<Planner, AllocError>
    requires sound { IsSound n.now }
    requires points { points.now.items ≡ points_of n.now }
    ensures { IfOk result (λ p. p ≡ setting_of n.now capacities.now) }
{
    let tolls = tolls_of(alloc, n)?;
    let table = loss_table(alloc, n)?;
    let losses = losses_of(alloc, &table, points)?;
    Planner::new(alloc, &n.wires, &tolls, points, &losses, capacities)
}
