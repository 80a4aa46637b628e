// The levels of all epochs of recorded streams.
ghost use Rattle.std.specs.Prelude.{◌≡◌, ◌+◌, ◌/◌, ◌<◌, ◌≤◌, ◌^◌, map, IfOk};
ghost use Rattle.sq_plan.specs.PlanRows.{level_for};
ghost use Rattle.sq_road.specs.Levels.{AgreesWith};
ghost use Rattle.sq_plan.specs.Arrivals.{arrivals};
ghost use Rattle.sq_model.specs.Epochs.{count_in, NoneBetween, QuietBetween};

use sq_plan::{Planner, close_epochs};
use sq_road::Levels;
use sq_value::Tuple;
use std::alloc::{AllocError, Global};

/// No tick is this one or later, so neither is any epoch.
const LAST: u64 = 1_099_511_627_776;

fn count_in(tuples: &[Tuple], epoch: u64, e: u64) -> u64
    requires { 1 ≤ epoch }
    ensures { result ≡ count_in epoch e tuples.now }
{
    tuples.iter().filter(|x| x.time / epoch == e).count() as u64
}

// How many tuples of each source arrive in an epoch.
fn counts_in(
    alloc: Global,
    sources: &[Vec<Tuple>],
    epoch: u64,
    e: u64,
) -> Result<Vec<u64>, AllocError>
    requires epoch { 1 ≤ epoch }
    ensures { IfOk result (λ v. v.items ≡ arrivals epoch (map (λ t. t.items) sources.now) e) }
{
    let mut counts = Vec::new(alloc);
    for source in sources {
        counts.push(count_in(source, epoch, e))?;
    }
    Ok(counts)
}

fn sooner(e: u64, ended: u64, next: u64) -> u64
    requires { ended < next }
    ensures later { ended < result }
    ensures low { result ≤ next }
    ensures skips { ended < e → result ≤ e }
{
    if ended < e && e < next { e } else { next }
}

// The first epoch after the one that ended in which a tuple of this source arrives, if it is before `next`, else `next`.
fn next_in(tuples: &[Tuple], epoch: u64, ended: u64, next: u64) -> u64
    requires epoch { 1 ≤ epoch }
    requires later { ended < next }
    ensures later { ended < result }
    ensures low { result ≤ next }
    ensures none { NoneBetween epoch ended result tuples.now }
{
    let mut first = next;
    for x in tuples {
        first = sooner(x.time / epoch, ended, first);
    }
    first
}

// The same of all sources.
fn next_of(sources: &[Vec<Tuple>], epoch: u64, ended: u64) -> u64
    requires epoch { 1 ≤ epoch }
    requires begun { ended < 2 ^ 40 }
    ensures later { ended < result }
    ensures low { result ≤ 2 ^ 40 }
    ensures quiet { QuietBetween epoch ended result (map (λ t. t.items) sources.now) }
{
    let mut next = LAST;
    for source in sources {
        next = next_in(source, epoch, ended, next);
    }
    next
}

/// Closes all epochs, each with the plan that the counts of the epoch before it give.
pub(crate) fn levels_of(
    alloc: Global,
    planner: &mut Planner,
    sources: &[Vec<Tuple>],
    epoch: u64,
) -> Result<Levels, AllocError>
    requires epoch { 1 ≤ epoch }
    ensures epoch { IfOk result (λ l. l.epoch ≡ epoch) }
    ensures closed { IfOk result (λ l. l.closed ≡ 2 ^ 40 + 1) }
    ensures agrees { IfOk result (λ l. AgreesWith l (level_for planner.old (arrivals epoch (map (λ t. t.items) sources.now)))) }
{
    let mut levels = Levels::new(alloc, epoch);
    let mut ended = 0;
    while ended < LAST {
        let counts = counts_in(alloc, sources, epoch, ended)?;
        let next = next_of(sources, epoch, ended);
        close_epochs(planner, &mut levels, &counts, next)?;
        ended = next;
    }
    Ok(levels)
}
