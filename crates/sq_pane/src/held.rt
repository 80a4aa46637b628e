//! The states of panes, by group and pane.

ghost use Rattle.std.specs.Prelude.{◌≡◌, ◌+◌, ◌^◌, ◌<◌, ◌≤◌, ◌++◌, true, [], map, OnOk, OnErr, IfOk};
ghost use Rattle.sq_aggfn.specs.Groups.{group_of};
ghost use Rattle.sq_aggfn.specs.KeyedStates.{added};
ghost use Rattle.sq_pane.specs.Panes.{key_cmp, from_pane, window_from, group_entry, lent_group};
ghost use Rattle.sq_rows.specs.Rows.{total, AllAreMade};
ghost use Rattle.sq_pane.specs.Blocks.{IsJoin};
ghost use Rattle.sq_pane.specs.States.{states_of, HaveBlocks};

use crate::joined::Joined;
use crate::line::{Line, add_to_line, joined_in, keep_from, line_of_one};
use crate::width::pane_shift;
use sq_aggfn::{Fold, WindowSpec};
use sq_groups::{GroupMap, Key, Picked};
use sq_value::Tuple;
use std::alloc::{AllocError, Global};

/// For each group that has tuples a state for each pane where it has them.
pub type Held<S> = GroupMap<Line<S>>;

/// The state of a pane and group becomes its join with that of a tuple, in place; after want of memory nothing changed.
pub fn add_at_key<F: Fold>(
    alloc: Global,
    fold: &F,
    held: &mut Held<F::State>,
    key: (u64, Key),
    t: &Tuple,
) -> Result<(), AllocError>
    requires made { AllAreMade (F.made fold.now) (states_of held.old) }
    requires few { total (F.number fold.now) (states_of held.old) + 1 < 2 ^ 62 }
    ensures added { OnOk result (states_of held.new ≡ added key_cmp (F.none fold.now) (F.joined fold.now) key (F.unit fold.now t.now) (states_of held.old)) }
    ensures made { OnOk result (AllAreMade (F.made fold.now) (states_of held.new)) }
    ensures total { OnOk result (total (F.number fold.now) (states_of held.new) ≡ total (F.number fold.now) (states_of held.old) + 1) }
    ensures err { OnErr result (states_of held.new ≡ states_of held.old) }
    ensures blocks { HaveBlocks (IsJoin (F.none fold.now) (F.joined fold.now) (F.made fold.now) (F.number fold.now)) held.old → HaveBlocks (IsJoin (F.none fold.now) (F.joined fold.now) (F.made fold.now) (F.number fold.now)) held.new }
{
    let (pane, key) = key;
    let _count = held.len();
    if let Some(line) = held.get_mut(&key) {
        return add_to_line(fold, line, pane, t);
    }
    let line = line_of_one(alloc, fold, pane, t)?;
    held.insert(key, line)?;
    Ok(())
}

/// Adds a tuple to the state of its group, by the fields `by`, in `pane`. The key is built only for a new group.
pub fn add_at_places<F: Fold>(
    alloc: Global,
    fold: &F,
    held: &mut Held<F::State>,
    pane: u64,
    by: &[u32],
    t: &Tuple,
) -> Result<(), AllocError>
    requires made { AllAreMade (F.made fold.now) (states_of held.old) }
    requires few { total (F.number fold.now) (states_of held.old) + 1 < 2 ^ 62 }
    ensures added { OnOk result (states_of held.new ≡ added key_cmp (F.none fold.now) (F.joined fold.now) (pane, group_of by.now t.now) (F.unit fold.now t.now) (states_of held.old)) }
    ensures made { OnOk result (AllAreMade (F.made fold.now) (states_of held.new)) }
    ensures total { OnOk result (total (F.number fold.now) (states_of held.new) ≡ total (F.number fold.now) (states_of held.old) + 1) }
    ensures err { OnErr result (states_of held.new ≡ states_of held.old) }
    ensures blocks { HaveBlocks (IsJoin (F.none fold.now) (F.joined fold.now) (F.made fold.now) (F.number fold.now)) held.old → HaveBlocks (IsJoin (F.none fold.now) (F.joined fold.now) (F.made fold.now) (F.number fold.now)) held.new }
{
    let picked = Picked::new(by, t);
    let _count = held.len();
    if let Some(line) = held.get_mut_at(&picked) {
        return add_to_line(fold, line, pane, t);
    }
    let key = Key::of(alloc, by, t)?;
    add_at_key(alloc, fold, held, (pane, key), t)
}

/// Takes the states of all panes before a number out.
pub fn forget_before<F: Fold>(fold: &F, held: &mut Held<F::State>, pane: u128)
    ensures states { states_of held.new ≡ from_pane pane (states_of held.old) }
    ensures blocks { HaveBlocks (IsJoin (F.none fold.now) (F.joined fold.now) (F.made fold.now) (F.number fold.now)) held.old → HaveBlocks (IsJoin (F.none fold.now) (F.joined fold.now) (F.made fold.now) (F.number fold.now)) held.new }
{
    held.retain(|_, line| keep_from(fold, line, pane));
}

/// Puts a group behind the others, where it has a state.
fn push_some<'a, S: Drop>(
    groups: &mut Vec<(&'a Key, Joined<'a, S>)>,
    key: &'a Key,
    state: Option<Joined<'a, S>>,
) -> Result<(), AllocError>
    ensures { OnOk result (map lent_group groups.new.items ≡ map lent_group groups.old.items ++ group_entry key.now state.entry) }
{
    if let Some(state) = state {
        groups.push((key, state))?;
    }
    Ok(())
}

/// The states of the groups of the window that begins at a tick, in the order of groups; by the blocks, if so told.
pub fn groups_at<'a, F: Fold>(
    alloc: Global,
    fold: &F,
    held: &'a Held<F::State>,
    by_blocks: bool,
    window: WindowSpec,
    width: u64,
    start: u64,
) -> Result<Vec<(&'a Key, Joined<'a, F::State>)>, AllocError>
    requires blocks { by_blocks ≡ true → HaveBlocks (IsJoin (F.none fold.now) (F.joined fold.now) (F.made fold.now) (F.number fold.now)) held.now }
    requires made { AllAreMade (F.made fold.now) (states_of held.now) }
    requires few { total (F.number fold.now) (states_of held.now) < 2 ^ 62 }
    ensures value { IfOk result (λ groups. map lent_group groups.items ≡ window_from (F.none fold.now) (F.joined fold.now) window width start [] (states_of held.now)) }
    ensures made { IfOk result (λ groups. AllAreMade (F.made fold.now) (map lent_group groups.items)) }
    ensures few { IfOk result (λ groups. total (F.number fold.now) (map lent_group groups.items) ≤ total (F.number fold.now) (states_of held.now)) }
{
    let entries = held.entries(alloc)?;
    let mut groups = Vec::with_capacity(alloc, entries.len())?;
    let shift = pane_shift(window, width);
    for entry in &entries {
        let joined = joined_in(fold, entry.1, by_blocks, window, width, shift, start)?;
        push_some(&mut groups, entry.0, joined)?;
    }
    Ok(groups)
}
