//! Giving the windows that end, one after another: only one window's groups are held for it at a time.

ghost use Rattle.std.specs.Prelude.{◌≡◌, ℕ, ◌+◌, ◌-◌, ◌*◌, ◌^◌, ◌<◌, ◌≤◌, ◌++◌, [], OnOk, OnErr};
ghost use Rattle.std.specs.List.{AllByRecursion, flat_map, range_with_len};
ghost use Rattle.sq_aggfn.specs.Windows.{IsWindow, start_of};
ghost use Rattle.sq_oper.specs.Giving.{GaveSome};
ghost use Rattle.sq_oper.specs.Streams.{at_zero};
ghost use Rattle.sq_pane.specs.Panes.{shift_of};
ghost use Rattle.sq_rows.specs.Rows.{total, AllAreMade};
ghost use Rattle.sq_pane.specs.Blocks.{IsJoin};
ghost use Rattle.sq_pane.specs.States.{states_of, HaveBlocks};
ghost use Rattle.sq_agg.specs.Positions.{open_at};
ghost use Rattle.sq_agg.specs.Holdings.{FitsResult, IsFirstEnd, IsSoundMark, MarksWait, bounds_of, closed_at, due_before, ended, folding_of, told_open};

use crate::results::give_results;
use crate::waiting::{Waiting, give_marks_before};
use crate::windows::filled_before;
use sq_aggfn::Fold;
use sq_oper::Outlet;
use sq_pane::Panes;
use std::alloc::AllocError;

/// Gives the results of a window, if the marks allow it, behind all marks up to its start.
fn give_window<F: Fold + Drop, T: Outlet>(
    panes: &Panes<F>,
    waiting: &mut Waiting,
    k: u64,
    out: &mut T,
) -> Result<(), AllocError>
    requires window { IsWindow panes.now.window }
    requires tick { start_of panes.now.window k < 2 ^ 40 }
    requires blocks { HaveBlocks (IsJoin (F.none panes.now.fold) (F.joined panes.now.fold) (F.made panes.now.fold) (F.number panes.now.fold)) panes.now.held }
    requires made { AllAreMade (F.made panes.now.fold) (states_of panes.now.held) }
    requires few { total (F.number panes.now.fold) (states_of panes.now.held) < 2 ^ 62 }
    requires fit { AllByRecursion (λ e. FitsResult (F.width panes.now.fold) e.0.1) (states_of panes.now.held) }
    requires marks { AllByRecursion IsSoundMark (bounds_of waiting.old).waiting }
    requires is_ready { T.ready out.old }
    ensures bounds { OnOk result (bounds_of waiting.new ≡ closed_at (start_of panes.now.window k + 1) (bounds_of waiting.old)) }
    ensures gives { GaveSome T.Outlet (λ q. at_zero q (due_before (F.told panes.now.fold) (start_of panes.now.window k + 1) (bounds_of waiting.old).waiting
        (ended (F.none panes.now.fold) (F.joined panes.now.fold) panes.now.window panes.now.width (bounds_of waiting.old) (states_of panes.now.held) k))) out.old out.new result }
{
    let start = panes.window.start_of(k);
    let allowed = waiting.allows(start);
    give_marks_before(waiting, start + 1, out)?;
    if allowed {
        return give_results(panes, start, out);
    }
    Ok(())
}

/// Gives the results of some windows that begin before a tick, and all marks before it, by time, a mark first.
fn give_windows<F: Fold + Drop, T: Outlet>(
    panes: &Panes<F>,
    waiting: &mut Waiting,
    from: u64,
    end: u64,
    mid: u64,
    out: &mut T,
) -> Result<(), AllocError>
    requires window { IsWindow panes.now.window }
    requires tick { (k : ℕ) → k < end → start_of panes.now.window k < 2 ^ 40 }
    requires before { (k : ℕ) → k < end → start_of panes.now.window k < mid }
    requires blocks { HaveBlocks (IsJoin (F.none panes.now.fold) (F.joined panes.now.fold) (F.made panes.now.fold) (F.number panes.now.fold)) panes.now.held }
    requires made { AllAreMade (F.made panes.now.fold) (states_of panes.now.held) }
    requires few { total (F.number panes.now.fold) (states_of panes.now.held) < 2 ^ 62 }
    requires fit { AllByRecursion (λ e. FitsResult (F.width panes.now.fold) e.0.1) (states_of panes.now.held) }
    requires marks { AllByRecursion IsSoundMark (bounds_of waiting.old).waiting }
    requires is_ready { T.ready out.old }
    ensures bounds { OnOk result (bounds_of waiting.new ≡ closed_at mid (bounds_of waiting.old)) }
    ensures gives { GaveSome T.Outlet (λ q. at_zero q (due_before (F.told panes.now.fold) mid (bounds_of waiting.old).waiting
        (flat_map (ended (F.none panes.now.fold) (F.joined panes.now.fold) panes.now.window panes.now.width (bounds_of waiting.old) (states_of panes.now.held)) (range_with_len from (end - from))))) out.old out.new result }
{
    for k in from..end {
        give_window(panes, waiting, k, out)?;
    }
    give_marks_before(waiting, mid, out)
}

/// Gives the results of all windows that begin before a tick and end after the time of the last item, and all marks
/// before the tick, by time, a mark first.
pub fn give_open<F: Fold + Drop, T: Outlet>(
    panes: &Panes<F>,
    waiting: &mut Waiting,
    now: u64,
    mid: u64,
    out: &mut T,
) -> Result<(), AllocError>
    requires window { IsWindow panes.now.window }
    requires tick { now < 2 ^ 40 }
    requires wide { 1 ≤ panes.now.width }
    requires narrow { panes.now.width ≤ panes.now.window.size }
    requires begun { AllByRecursion (λ e. e.0.0 * panes.now.width ≤ now + shift_of panes.now.window panes.now.width) (states_of panes.now.held) }
    requires blocks { HaveBlocks (IsJoin (F.none panes.now.fold) (F.joined panes.now.fold) (F.made panes.now.fold) (F.number panes.now.fold)) panes.now.held }
    requires made { AllAreMade (F.made panes.now.fold) (states_of panes.now.held) }
    requires few { total (F.number panes.now.fold) (states_of panes.now.held) < 2 ^ 62 }
    requires fit { AllByRecursion (λ e. FitsResult (F.width panes.now.fold) e.0.1) (states_of panes.now.held) }
    requires waits { MarksWait panes.now.window.size now (bounds_of waiting.old).waiting }
    requires later { open_at panes.now.window.size now ≤ mid }
    requires is_ready { T.ready out.old }
    ensures bounds { OnOk result (bounds_of waiting.new ≡ closed_at mid (bounds_of waiting.old)) }
    ensures gives { GaveSome T.Outlet (λ q. at_zero q (told_open (folding_of [] (F.none panes.now.fold) (F.joined panes.now.fold) (F.unit panes.now.fold) (F.told panes.now.fold))
        panes.now.window panes.now.width now mid (bounds_of waiting.old) (states_of panes.now.held))) out.old out.new result }
{
    let from = panes.window.first_covering(now);
    let end = filled_before(panes.window, now, mid);
    give_windows(panes, waiting, from, end, mid, out)
}

/// The same after an item of a time, which gives marks alone where no window ends before it. Where one does, the groups are put
/// into their order first, so that it is found once for all windows and for what is forgotten then.
pub fn give_ended<F: Fold + Drop, T: Outlet>(
    panes: &mut Panes<F>,
    waiting: &mut Waiting,
    now: u64,
    ends: u64,
    time: u64,
    mid: u64,
    out: &mut T,
) -> Result<(), AllocError>
    requires window { IsWindow panes.old.window }
    requires tick { now < 2 ^ 40 }
    requires wide { 1 ≤ panes.old.width }
    requires narrow { panes.old.width ≤ panes.old.window.size }
    requires begun { AllByRecursion (λ e. e.0.0 * panes.old.width ≤ now + shift_of panes.old.window panes.old.width) (states_of panes.old.held) }
    requires blocks { HaveBlocks (IsJoin (F.none panes.old.fold) (F.joined panes.old.fold) (F.made panes.old.fold) (F.number panes.old.fold)) panes.old.held }
    requires made { AllAreMade (F.made panes.old.fold) (states_of panes.old.held) }
    requires few { total (F.number panes.old.fold) (states_of panes.old.held) < 2 ^ 62 }
    requires fit { AllByRecursion (λ e. FitsResult (F.width panes.old.fold) e.0.1) (states_of panes.old.held) }
    requires waits { MarksWait panes.old.window.size now (bounds_of waiting.old).waiting }
    requires ends { IsFirstEnd panes.old.window now ends }
    requires later { now ≤ time }
    requires mid { mid ≡ open_at panes.old.window.size time }
    requires is_ready { T.ready out.old }
    ensures panes { panes.new ≡ panes.old }
    ensures bounds { OnOk result (bounds_of waiting.new ≡ closed_at mid (bounds_of waiting.old)) }
    ensures gives { GaveSome T.Outlet (λ q. at_zero q (told_open (folding_of [] (F.none panes.old.fold) (F.joined panes.old.fold) (F.unit panes.old.fold) (F.told panes.old.fold))
        panes.old.window panes.old.width now mid (bounds_of waiting.old) (states_of panes.old.held))) out.old out.new result }
{
    if time < ends {
        if waiting.is_empty() {
            return Ok(());
        }
        return give_marks_before(waiting, mid, out);
    }
    panes.put_in_order();
    give_open(panes, waiting, now, mid, out)
}
