//! Giving the results of a window.

ghost use Rattle.std.specs.Prelude.{◌≡◌, ℕ, ◌^◌, ◌<◌, ◌++◌, [], ◌∷◌, OnOk, OnErr};
ghost use Rattle.std.specs.List.{AllByRecursion};
ghost use Rattle.sq_oper.specs.Giving.{Gave, GaveSome};
ghost use Rattle.sq_oper.specs.Streams.{things, at_zero};
ghost use Rattle.sq_pane.specs.Panes.{window_from};
ghost use Rattle.sq_rows.specs.Rows.{total, AllAreMade};
ghost use Rattle.sq_pane.specs.Blocks.{IsJoin};
ghost use Rattle.sq_pane.specs.States.{states_of, HaveBlocks};
ghost use Rattle.sq_agg.specs.Holdings.{FitsResult, IsSoundKey, results_of, tagged};

use sq_aggfn::Fold;
use sq_groups::Key;
use sq_item::{Body, Item, Sign};
use sq_oper::Outlet;
use sq_pane::{Joined, Panes};
use std::alloc::AllocError;

/// Gives the result of a group in the window that begins at a tick.
fn give_result<F: Fold, T: Outlet>(
    fold: &F,
    start: u64,
    group: &Key,
    state: &Joined<'_, F::State>,
    out: &mut T,
) -> Result<(), AllocError>
    requires sound { IsSoundKey (F.width fold.now) (start, group.now) }
    requires made { F.made fold.now state.now }
    requires is_ready { T.ready out.old }
    ensures { Gave T.Outlet (λ q. at_zero q (things (results_of (F.told fold.now) (tagged start ((group.now, state.now) ∷ []))))) out.old out.new result }
{
    let fields = fold.answer_after(group.as_slice(), state.get())?;
    out.give(
        0,
        Item {
            time: start,
            mark: Sign::none(),
            body: Body::some(fields),
        },
    )
}

/// Gives the results of the window that begins at a tick, in the order of groups.
pub fn give_results<F: Fold + Drop, T: Outlet>(
    panes: &Panes<F>,
    start: u64,
    out: &mut T,
) -> Result<(), AllocError>
    requires tick { start < 2 ^ 40 }
    requires blocks { HaveBlocks (IsJoin (F.none panes.now.fold) (F.joined panes.now.fold) (F.made panes.now.fold) (F.number panes.now.fold)) panes.now.held }
    requires made { AllAreMade (F.made panes.now.fold) (states_of panes.now.held) }
    requires few { total (F.number panes.now.fold) (states_of panes.now.held) < 2 ^ 62 }
    requires fit { AllByRecursion (λ e. FitsResult (F.width panes.now.fold) e.0.1) (states_of panes.now.held) }
    requires is_ready { T.ready out.old }
    ensures { GaveSome T.Outlet (λ q. at_zero q (things (results_of (F.told panes.now.fold)
        (tagged start (window_from (F.none panes.now.fold) (F.joined panes.now.fold) panes.now.window panes.now.width start [] (states_of panes.now.held)))))) out.old out.new result }
{
    let groups = panes.groups_by_blocks(start)?;
    for entry in &groups {
        give_result(&panes.fold, start, entry.0, &entry.1, out)?;
    }
    Ok(())
}
