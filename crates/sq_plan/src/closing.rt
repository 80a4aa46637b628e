// What is closed at the release of a tuple of a later epoch.
ghost use Rattle.std.specs.Prelude.{◌≡◌, ℕ, ◌+◌, ◌-◌, ◌≤◌, ◌<◌, ◌^◌, false, List, if◌then◌else◌, IfOk, OnOk, OnErr};
ghost use Rattle.std.specs.List.{flat_map, range_with_len};
ghost use Rattle.sq_road.specs.Levels.{level_of, AgreesWith};
ghost use Rattle.sq_road.specs.Roads.{level_in};
ghost use Rattle.sq_plan.specs.Rates.{load_of_all};
ghost use Rattle.sq_plan.specs.Settings.{row_for};
ghost use Rattle.sq_plan.specs.Plans.{Setting, road_for, taken_for, capacity_at};
ghost use Rattle.sq_plan.specs.PlanRows.{is_quiet, shown_with, shown_from, listed, level_for, shown_after, Ended};

use crate::{Planned, Planner};
use sq_road::Levels;
use std::alloc::AllocError;

/// A plan that a run shows.
#[derive(Clone, Copy, PartialEq, Eq, Drop)]
pub struct Shown {
    /// The epoch that it is for.
    pub epoch: u64,
    /// The load that is expected there.
    pub load: u128,
    /// The load that is allowed there.
    pub capacity: u128,
    /// The load that the row saves.
    pub saved: u128,
    /// Whether that is enough.
    pub fits: bool,
}

fn is_quiet(counts: &[u64]) -> bool
    ensures { result ≡ is_quiet counts.now }
{
    counts.iter().all(|c| *c == 0)
}

fn plan_to_show(epoch: u64, planned: &Planned) -> Option<Shown>
    ensures { (s : Setting) (counts : List ℕ) → planned.now.load ≡ load_of_all s.wires s.tolls counts → planned.now.row ≡ row_for s counts planned.now.capacity
        → listed result ≡ shown_with s epoch counts planned.now.capacity }
{
    let Some(capacity) = planned.capacity else {
        return None;
    };
    if planned.row.taken == 0 {
        return None;
    }
    Some(Shown {
        epoch,
        load: planned.load,
        capacity,
        saved: planned.row.saved,
        fits: planned.row.fits,
    })
}

// Plans the epoch after one that ended, unless that one had no tuples. Where nothing can be dropped no plan is worked out.
fn plan_after(
    planner: &mut Planner,
    levels: &mut Levels,
    counts: &Vec<u64>,
    ended: u64,
) -> Result<Option<Shown>, AllocError>
    requires next { levels.old.closed ≡ ended + 1 }
    requires fits { ended + 1 < 2 ^ 64 - 1 }
    ensures same { planner.new ≡ planner.old }
    ensures epoch { levels.new.epoch ≡ levels.old.epoch }
    ensures closed { OnOk result (levels.new.closed ≡ (if is_quiet counts.now.items then ended + 1 else ended + 2)) }
    ensures keeps { (x w : ℕ) → x < ended + 1 → level_of levels.new x w ≡ level_of levels.old x w }
    ensures sets { OnOk result ((w : ℕ) → is_quiet counts.now.items ≡ false
        → level_of levels.new (ended + 1) w ≡ level_in (road_for planner.old counts.now.items) (taken_for planner.old counts.now.items (capacity_at planner.old.entries (ended + 1))) w) }
    ensures shown { IfOk result (λ p. listed p ≡ shown_from planner.old ended counts.now.items) }
    ensures err { OnErr result (levels.new ≡ levels.old) }
{
    if is_quiet(counts) {
        return Ok(None);
    }
    if !planner.may_drop(ended + 1) {
        levels.skip_to(ended + 2);
        return Ok(None);
    }
    let planned = planner.close_epoch(ended, counts, levels)?;
    Ok(plan_to_show(ended + 1, &planned))
}

/// Closes all epochs up to the one of a tuple that is released, where `counts` are the tuples of each source in the epoch
/// that is open. The epochs between have no tuples and are skipped, however many they are. It answers the plan that is
/// shown, if one is. An `Err` changes no level.
pub fn close_epochs(
    planner: &mut Planner,
    levels: &mut Levels,
    counts: &Vec<u64>,
    next: u64,
) -> Result<Option<Shown>, AllocError>
    requires later { levels.old.closed ≤ next + 1 }
    requires fits { next < 2 ^ 64 - 1 }
    ensures same { planner.new ≡ planner.old }
    ensures epoch { levels.new.epoch ≡ levels.old.epoch }
    ensures closed { OnOk result (levels.new.closed ≡ next + 1) }
    ensures keeps { (x w : ℕ) → x < levels.old.closed → level_of levels.new x w ≡ level_of levels.old x w }
    ensures agrees { OnOk result ((all : ℕ → List ℕ) → Ended all (levels.old.closed - 1) next counts.now.items → AgreesWith levels.old (level_for planner.old all) → AgreesWith levels.new (level_for planner.old all)) }
    ensures shown { IfOk result (λ p. (all : ℕ → List ℕ) → Ended all (levels.old.closed - 1) next counts.now.items
        → listed p ≡ flat_map (shown_after planner.old all) (range_with_len (levels.old.closed - 1) (next - (levels.old.closed - 1)))) }
    ensures err { OnErr result (levels.new ≡ levels.old) }
{
    let ended = levels.closed() - 1;
    if next == ended {
        return Ok(None);
    }
    let plan = plan_after(planner, levels, counts, ended)?;
    levels.skip_to(next + 1);
    Ok(plan)
}
