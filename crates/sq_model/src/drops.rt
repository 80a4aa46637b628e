// What is dropped, shown and kept, where the drop points and the levels are given.
ghost use Rattle.std.specs.Prelude.{◌≡◌, ℕ, ◌&&◌, not, length, nat_lt, ◌+◌, ◌-◌, ◌*◌, ◌/◌, ◌<◌, ◌≤◌, ◌^◌, ◌++◌, ◌∷◌, [], if◌then◌else◌, false, IfOk, OnOk};
ghost use Rattle.sq_value.specs.Values.{IsStream};
ghost use Rattle.sq_model.specs.Shedding.{is_touched, last_of};
ghost use Rattle.sq_model.specs.GivenLevels.{drops_at, record_by, needed_by, needs_at, kept_by, shown_without, IsMeasured, AreTicks};
ghost use Rattle.sq_words.specs.Lists.{contains_number};

use sq_place::DropPoint;
use sq_road::{Levels, draw};
use sq_value::{Tuple, copy_tuple};
use std::alloc::{AllocError, Global};

// Whether a batch of drop `w` is dropped: its draw is below the level of the epoch in which it begins.
pub(crate) fn is_dropped(levels: &Levels, seed: u64, w: u32, p: &DropPoint, b: u64) -> bool
    requires fits { b * p.now.length < 2 ^ 64 }
    requires known { b * p.now.length / levels.now.epoch < levels.now.closed }
    ensures { result ≡ drops_at levels.now seed w p.now b }
{
    let epoch = b * p.length / levels.epoch();
    draw(seed, w, b) < levels.level(epoch, w)
}

// Whether a tuple stands in a batch, or before the tick until which the batch is kept.
fn touches(tuples: &[Tuple], p: &DropPoint, b: u64) -> bool
    requires more { b + 1 < 2 ^ 64 }
    requires fits { (b + 1) * p.now.length + p.now.keep < 2 ^ 64 }
    ensures { result ≡ is_touched p.now tuples.now b }
{
    let begin = b * p.length;
    let end = (b + 1) * p.length + p.keep;
    tuples.iter().any(|x| begin <= x.time && x.time < end)
}

pub(crate) fn last_time(tuples: &[Tuple]) -> u64
    ensures { result ≡ last_of tuples.now }
{
    let mut last = 0;
    for x in tuples {
        last = x.time.max(last);
    }
    last
}

// Whether a batch that begins by the last tuple is touched and dropped.
#[tactic(auto, using(crate::proofs::BatchLemmas::last_low, crate::proofs::BatchLemmas::batch_begins, crate::proofs::BatchLemmas::batch_fits, crate::proofs::BatchLemmas::batch_small, crate::proofs::BatchLemmas::epochs_up))]
fn is_recorded(tuples: &[Tuple], levels: &Levels, seed: u64, w: u32, p: &DropPoint, b: u64) -> bool
    requires measured { IsMeasured p.now }
    requires ticks { AreTicks tuples.now }
    requires known { last_of tuples.now / levels.now.epoch < levels.now.closed }
    requires begun { b ≤ last_of tuples.now / p.now.length }
    ensures { result ≡ (is_touched p.now tuples.now b && drops_at levels.now seed w p.now b) }
{
    let _epoch = levels.epoch();
    touches(tuples, p, b) && is_dropped(levels, seed, w, p, b)
}

fn note(batches: &mut Vec<u64>, b: u64, noted: bool) -> Result<(), AllocError>
    ensures { OnOk result (batches.new.items ≡ batches.old.items ++ (if noted then b ∷ [] else [])) }
{
    if noted {
        batches.push(b)?;
    }
    Ok(())
}

// A batch below which none is touched: each ends, with what is kept for it, by the first tuple.
fn first_batch(tuples: &[Tuple], p: &DropPoint) -> u64
    requires measured { IsMeasured p.now }
    requires stream { IsStream tuples.now }
    ensures untouched { (b : ℕ) → b < result → is_touched p.now tuples.now b ≡ false }
    ensures low { result ≤ last_of tuples.now / p.now.length }
{
    match tuples {
        [] => 0,
        [x, ..] => x.time.saturating_sub(p.keep) / p.length,
    }
}

// The record of drop `w`: of the batches that a tuple of its full stream touches, those that are dropped.
pub(crate) fn dropped_batches(
    alloc: Global,
    tuples: &[Tuple],
    levels: &Levels,
    seed: u64,
    w: u32,
    p: &DropPoint,
) -> Result<Vec<u64>, AllocError>
    requires measured { IsMeasured p.now }
    requires stream { IsStream tuples.now }
    requires ticks { AreTicks tuples.now }
    requires known { last_of tuples.now / levels.now.epoch < levels.now.closed }
    ensures { IfOk result (λ v. v.items ≡ record_by levels.now seed w p.now tuples.now) }
{
    let mut batches = Vec::new(alloc);
    for b in first_batch(tuples, p)..last_time(tuples) / p.length + 1 {
        let noted = is_recorded(tuples, levels, seed, w, p, b);
        note(&mut batches, b, noted)?;
    }
    Ok(batches)
}

fn is_shown(x: &Tuple, p: &DropPoint, dropped: &[u64]) -> bool
    requires { 1 ≤ p.now.length }
    ensures { result ≡ not (contains_number dropped.now (x.now.time / p.now.length)) }
{
    !dropped.contains(&(x.time / p.length))
}

// The tuples of an output's full stream whose batch isn't recorded as dropped.
pub(crate) fn shown_tuples(
    full: &[Tuple],
    p: &DropPoint,
    dropped: &[u64],
    shown: &mut Vec<Tuple>,
) -> Result<(), AllocError>
    requires { 1 ≤ p.now.length }
    ensures { OnOk result (shown.new.items ≡ shown.old.items ++ shown_without p.now dropped.now full.now) }
{
    for x in full {
        if is_shown(x, p, dropped) {
            shown.push(copy_tuple(x)?)?;
        }
    }
    Ok(())
}

// Whether a batch that begins by a tick is permitted and needs it, at a distance.
#[tactic(auto, using(crate::proofs::BatchLemmas::batch_begins, crate::proofs::BatchLemmas::batch_fits, crate::proofs::BatchLemmas::batch_small, crate::proofs::BatchLemmas::epochs_up))]
fn needs(levels: &Levels, seed: u64, w: u32, p: &DropPoint, distance: u64, t: u64, b: u64) -> bool
    requires measured { IsMeasured p.now }
    requires tick { t < 2 ^ 40 }
    requires known { 2 ^ 40 / levels.now.epoch < levels.now.closed }
    requires begun { b ≤ t / p.now.length }
    ensures { result ≡ needs_at levels.now seed w p.now distance t b }
{
    let _epoch = levels.epoch();
    let until = (b + 1) * p.length + p.keep;
    !is_dropped(levels, seed, w, p, b) && t < until.saturating_sub(distance)
}

// Whether some permitted batch needs a tick, at a distance. A batch that begins more than `keep` ticks and its length before
// it doesn't.
fn is_needed(levels: &Levels, seed: u64, w: u32, p: &DropPoint, distance: u64, t: u64) -> bool
    requires measured { IsMeasured p.now }
    requires tick { t < 2 ^ 40 }
    requires known { 2 ^ 40 / levels.now.epoch < levels.now.closed }
    ensures { result ≡ nat_lt t (needed_by levels.now seed w p.now (t / p.now.length) - distance) }
{
    for b in t.saturating_sub(p.keep) / p.length..t / p.length + 1 {
        if needs(levels, seed, w, p, distance, t, b) {
            return true;
        }
    }
    false
}

// How many tuples of a full stream some permitted batch may need, at a distance.
pub(crate) fn kept_number(
    full: &[Tuple],
    levels: &Levels,
    seed: u64,
    w: u32,
    p: &DropPoint,
    distance: u64,
) -> u64
    requires measured { IsMeasured p.now }
    requires ticks { AreTicks full.now }
    requires known { 2 ^ 40 / levels.now.epoch < levels.now.closed }
    ensures { result ≡ length (kept_by levels.now seed w p.now distance full.now) }
{
    let mut number = 0;
    for x in full {
        if is_needed(levels, seed, w, p, distance, x.time) {
            number += 1;
        }
    }
    number
}
