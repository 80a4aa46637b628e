// What is dropped, shown and fed in a replay.
ghost use Rattle.std.specs.Prelude.{◌≡◌, ◌+◌, ◌<◌, ◌^◌, map, length, Some, slice_get, IfOk};
ghost use Rattle.std.specs.List.{All, sum_by};
ghost use Rattle.sq_words.specs.Lists.{numbers_to};
ghost use Rattle.sq_value.specs.Values.{IsStream};
ghost use Rattle.sq_graph.specs.Wires.{output_arc_at};
ghost use Rattle.sq_place.specs.declared.DropPoint.{DropPoint};
ghost use Rattle.sq_net.specs.SoundNetworks.{IsSound};
ghost use Rattle.sq_points.specs.Limits.{KeepsDropLimits};
ghost use Rattle.sq_points.specs.Points.{points_of};
ghost use Rattle.sq_model.specs.Shedding.{Replay, record_of, answer_of};
ghost use Rattle.sq_model.specs.KeptTuples.{kept_of, work_of};
ghost use Rattle.sq_model.specs.KnownStreams.{stream_at_place, IsSafe, IsKnown};

use crate::boxes::push_copies;
use crate::drops::{dropped_batches, kept_number, shown_tuples};
use crate::known::{Known, known_of};
use sq_graph::output_arc;
use sq_net::Network;
use sq_plan::Capacities;
use sq_points::{above_arc, above_output, distance_below};
use sq_value::Tuple;
use std::alloc::{AllocError, Global};

fn dropped_in(alloc: Global, known: &Known, w: u32) -> Result<Vec<u64>, AllocError>
    requires safe { IsSafe known.now }
    requires there { w < length known.now.points.items }
    ensures { IfOk result (λ v. (r : Replay) (p : DropPoint) → IsKnown known.now r → slice_get known.now.points.items w ≡ Some p → v.items ≡ record_of r w p) }
{
    let _epoch = known.levels.epoch();
    let p = &known.points[w as usize];
    let full = known.at_place(p.at);
    dropped_batches(alloc, full, &known.levels, known.seed, w, p)
}

fn copy_of(alloc: Global, tuples: &[Tuple]) -> Result<Vec<Tuple>, AllocError>
    ensures { IfOk result (λ v. v.items ≡ tuples.now) }
{
    let mut copy = Vec::new(alloc);
    push_copies(tuples, &mut copy)?;
    Ok(copy)
}

fn answer_in(alloc: Global, known: &Known, output: u32, arc: u32) -> Result<Vec<Tuple>, AllocError>
    requires { IsSafe known.now }
    ensures { IfOk result (λ v. (r : Replay) → IsKnown known.now r → arc ≡ output_arc_at r.network.wires output → v.items ≡ answer_of r output) }
{
    let _epoch = known.levels.epoch();
    let full = known.at_arc(arc);
    match above_output(&known.points, output) {
        None => copy_of(alloc, full),
        Some(w) => {
            let record = dropped_in(alloc, known, w as u32)?;
            let mut shown = Vec::new(alloc);
            shown_tuples(full, &known.points[w], &record, &mut shown)?;
            Ok(shown)
        }
    }
}

// How many tuples of an arc are kept.
fn kept_in(known: &Known, arc: u32) -> u64
    requires { IsSafe known.now }
    ensures { (r : Replay) → IsKnown known.now r → result ≡ length (kept_of r arc) }
{
    let _epoch = known.levels.epoch();
    let full = known.at_arc(arc);
    match above_arc(&known.points, arc) {
        None => full.len() as u64,
        Some(w) => {
            let p = &known.points[w];
            let distance = distance_below(p, arc);
            kept_number(full, &known.levels, known.seed, w as u32, p, distance)
        }
    }
}

// How many tuples of each arc are kept.
fn kept_numbers(alloc: Global, known: &Known) -> Result<Vec<u64>, AllocError>
    requires { IsSafe known.now }
    ensures kept { IfOk result (λ v. (r : Replay) → IsKnown known.now r → v.items ≡ map (λ a. length (kept_of r a)) (numbers_to (length known.now.arcs.items))) }
    ensures many { IfOk result (λ v. length v.items ≡ length known.now.arcs.items) }
{
    let mut all = Vec::new(alloc);
    for arc in 0..known.arcs.len() as u32 {
        all.push(kept_in(known, arc))?;
    }
    Ok(all)
}

// How many tuples each drop is fed.
fn place_numbers(alloc: Global, known: &Known) -> Result<Vec<u64>, AllocError>
    ensures { IfOk result (λ v. v.items ≡ map (λ p. length (stream_at_place known.now p.at)) known.now.points.items) }
{
    let mut all = Vec::new(alloc);
    for p in &known.points {
        all.push(known.at_place(p.at).len() as u64)?;
    }
    Ok(all)
}

fn total(numbers: &[u64]) -> u128
    requires { length numbers.now < 2 ^ 32 }
    ensures sum { result ≡ sum_by (λ k. k) numbers.now }
    ensures few { result < 2 ^ 96 }
{
    let mut sum = 0;
    for number in numbers {
        sum += u128::from(*number);
    }
    sum
}

fn work_in(alloc: Global, known: &Known) -> Result<u128, AllocError>
    requires { IsSafe known.now }
    ensures { IfOk result (λ v. (r : Replay) → IsKnown known.now r → v ≡ work_of r) }
{
    let kept = kept_numbers(alloc, known)?;
    let given = place_numbers(alloc, known)?;
    Ok(total(&kept) + total(&given))
}

/// The record of drop `w`: of the batches that a tuple of the full stream at the drop touches, those that plan and seed drop,
/// ascending.
pub fn dropped(
    alloc: Global,
    n: &Network,
    sources: &[Vec<Tuple>],
    c: &Capacities,
    seed: u64,
    w: u32,
) -> Result<Vec<u64>, AllocError>
    requires sound { IsSound n.now }
    requires limits { KeepsDropLimits n.now }
    requires lists { length sources.now ≡ length n.now.sources }
    requires streams { All IsStream (map (λ t. t.items) sources.now) }
    requires there { w < length (points_of n.now) }
    ensures { IfOk result (λ v. (p : DropPoint) → slice_get (points_of n.now) w ≡ Some p
        → v.items ≡ record_of (record { network = n.now; sources = map (λ t. t.items) sources.now; entries = c.now; seed = seed }) w p) }
{
    let known = known_of(alloc, n, sources, c, seed)?;
    dropped_in(alloc, &known, w)
}

/// The answer of an output: its full stream without the batches that are dropped.
pub fn answer(
    alloc: Global,
    n: &Network,
    sources: &[Vec<Tuple>],
    c: &Capacities,
    seed: u64,
    output: u32,
) -> Result<Vec<Tuple>, AllocError>
    requires sound { IsSound n.now }
    requires limits { KeepsDropLimits n.now }
    requires lists { length sources.now ≡ length n.now.sources }
    requires streams { All IsStream (map (λ t. t.items) sources.now) }
    requires there { output < length n.now.outputs }
    ensures { IfOk result (λ v. v.items ≡ answer_of (record { network = n.now; sources = map (λ t. t.items) sources.now; entries = c.now; seed = seed }) output) }
{
    let known = known_of(alloc, n, sources, c, seed)?;
    answer_in(alloc, &known, output, output_arc(&n.wires, output))
}

/// How many tuples all boxes, drops and outputs are fed.
pub fn work(
    alloc: Global,
    n: &Network,
    sources: &[Vec<Tuple>],
    c: &Capacities,
    seed: u64,
) -> Result<u128, AllocError>
    requires sound { IsSound n.now }
    requires limits { KeepsDropLimits n.now }
    requires lists { length sources.now ≡ length n.now.sources }
    requires streams { All IsStream (map (λ t. t.items) sources.now) }
    ensures { IfOk result (λ v. v ≡ work_of (record { network = n.now; sources = map (λ t. t.items) sources.now; entries = c.now; seed = seed })) }
{
    let known = known_of(alloc, n, sources, c, seed)?;
    work_in(alloc, &known)
}
