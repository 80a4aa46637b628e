//! What is closed before a tuple of a later epoch is released.

ghost use Rattle.std.specs.Prelude.{◌≡◌, ◌+◌, ◌-◌, ◌≤◌, ◌<◌, ◌++◌, ◌^◌, ◌/◌, length, replicate, OnOk, OnErr, IfOk};
ghost use Rattle.sq_flow.specs.Events.{plan_of};
ghost use Rattle.sq_flow.specs.Plans.{plans_of};
ghost use Rattle.sq_flow.specs.Closes.{ClosesSome, ClosesAll};

use sq_oper::Event;
use sq_plan::{Planner, Shown, close_epochs};
use sq_replay::Stream;
use sq_road::Levels;
use std::alloc::{AllocError, Global};

/// Nothing is counted of any source.
pub(crate) fn no_counts(alloc: Global, sources: &Vec<Stream>) -> Result<Vec<u64>, AllocError>
    ensures { IfOk result (λ v. v.items ≡ replicate (length sources.now.items) 0) }
{
    vec![in alloc; 0; sources.len()]
}

/// Shows a plan, if there is one.
fn show_plan(plan: Option<Shown>, events: &mut Vec<Event>) -> Result<(), AllocError>
    ensures ok { OnOk result (events.new.items ≡ events.old.items ++ plan_of plan) }
    ensures err { OnErr result (events.new.items ≡ events.old.items) }
{
    if let Some(shown) = plan {
        events.push(Event::Plan {
            epoch: shown.epoch,
            load: shown.load,
            capacity: shown.capacity,
            saved: shown.saved,
            fits: shown.fits,
        })?;
    }
    Ok(())
}

/// The epoch of a time that isn't before the open one, the last before `closed`. Most times are of that one, which a product tells.
#[inline(always)]
pub(crate) fn epoch_of(time: u64, epoch: u64, closed: u64) -> u64
    requires lasts { 1 ≤ epoch }
    requires later { closed ≤ time / epoch + 1 }
    ensures { result ≡ time / epoch }
{
    if u128::from(time) < u128::from(closed) * u128::from(epoch) {
        return closed - 1;
    }
    time / epoch
}

/// Closes the epochs before one, where they are open, and shows the plan that follows. The counts begin anew with an epoch.
pub(crate) fn close_before(
    planner: &mut Planner,
    levels: &mut Levels,
    counts: &mut Vec<u64>,
    next: u64,
    events: &mut Vec<Event>,
) -> Result<(), AllocError>
    requires later { levels.old.closed ≤ next + 1 }
    requires fits { next < 2 ^ 64 - 1 }
    ensures closes { ClosesSome planner.old planner.new levels.old levels.new counts.old.items next events.old.items events.new.items }
    ensures ok { OnOk result (ClosesAll planner.old levels.old levels.new counts.old.items counts.new.items next events.old.items events.new.items) }
    ensures err { OnErr result (plans_of events.new.items ≡ plans_of events.old.items) }
{
    if next + 1 == levels.closed() {
        return Ok(());
    }
    let plan = close_epochs(planner, levels, counts, next)?;
    counts.fill(0);
    show_plan(plan, events)?;
    Ok(())
}
