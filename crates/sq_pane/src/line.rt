//! The states of one group.

ghost use Rattle.std.specs.Prelude.{◌≡◌, ℕ, ◌+◌, ◌-◌, ◌^◌, ◌<◌, ◌≤◌, nat_le, true, false, Option, unwrap_or, [], length, take, drop, get_or, OnOk, OnErr, IfOk};
ghost use Rattle.std.specs.Ordering.{nat_cmp};
ghost use Rattle.std.specs.List.{AllByRecursion, filter};
ghost use Rattle.sq_aggfn.specs.KeyedStates.{added};
ghost use Rattle.sq_pane.specs.Blocks.{IsJoin, AreBlocks, begins_before};
ghost use Rattle.sq_rows.specs.Rows.{total, AllAreMade};
ghost use Rattle.sq_pane.specs.Panes.{NumbersRise, Rises-prop, shift_of, within, joined_within, IsMadeIf};
ghost use Rattle.sq_aggfn.specs.Folds.{number_if};

use crate::joined::Joined;
use sq_aggfn::{Fold, WindowSpec};
use sq_rows::take_in_row;
use sq_value::Tuple;
use std::alloc::{AllocError, Global};
use std::collections::VecDeque;

/// How many states a block joins.
const BLOCK: usize = 64;

/// The states of one group, each with the number of its pane. These rise. Behind the first `ahead` states each block is
/// the join of the next 64, so that a window of many panes is joined of few states. No block joins the last state, which
/// may still grow.
#[derive(Drop)]
pub struct Line<S> {
    pub states: VecDeque<(u64, S)>,
    pub ahead: usize,
    pub blocks: Vec<S>,
    ghost rises: { NumbersRise states.items } by { Rises-prop states.items },
}

/// How many of the first states go up to the pane with a number.
fn count_up_to<S>(states: &VecDeque<(u64, S)>, pane: u64) -> usize
    ensures within { result ≤ length states.now.items }
    ensures last { (d : ℕ × S) → 0 < result → (get_or states.now.items (result - 1) d).0 ≤ pane }
    ensures after { AllByRecursion (λ e. pane < e.0) (drop result states.now.items) }
{
    let mut count = states.len();
    while count > 0 && states[count - 1].0 > pane {
        count -= 1;
    }
    count
}

/// The state of a pane becomes its join with that of a tuple, in place; after want of memory nothing changed.
fn add_state<F: Fold>(
    fold: &F,
    states: &mut VecDeque<(u64, F::State)>,
    pane: u64,
    t: &Tuple,
) -> Result<(), AllocError>
    requires rises { NumbersRise states.old.items }
    requires made { AllAreMade (F.made fold.now) states.old.items }
    requires few { total (F.number fold.now) states.old.items + 1 < 2 ^ 62 }
    ensures added { OnOk result (states.new.items ≡ added nat_cmp (F.none fold.now) (F.joined fold.now) pane (F.unit fold.now t.now) states.old.items) }
    ensures rises { NumbersRise states.new.items }
    ensures made { OnOk result (AllAreMade (F.made fold.now) states.new.items) }
    ensures total { OnOk result (total (F.number fold.now) states.new.items ≡ total (F.number fold.now) states.old.items + 1) }
    ensures err { OnErr result (states.new.items ≡ states.old.items) }
{
    let count = count_up_to(states, pane);
    if count > 0 && states[count - 1].0 == pane {
        return fold.add(&mut states[count - 1].1, t);
    }
    let one = fold.one(t)?;
    states.insert(count, (pane, one))?;
    Ok(())
}

/// Whether the last state is that of a pane.
#[inline(always)]
fn ends_at<S>(states: &VecDeque<(u64, S)>, pane: u64) -> bool
    ensures some { result ≡ true → 0 < length states.now.items }
    ensures last { (d : ℕ × S) → result ≡ true → (get_or states.now.items (length states.now.items - 1) d).0 ≡ pane }
{
    match states.back() {
        Some(entry) => entry.0 == pane,
        None => false,
    }
}

/// The last state becomes its join with that of a tuple of its pane, in place; after want of memory nothing changed.
#[inline(always)]
fn add_to_last<F: Fold>(
    fold: &F,
    states: &mut VecDeque<(u64, F::State)>,
    t: &Tuple,
) -> Result<(), AllocError>
    requires some { 0 < length states.old.items }
    requires rises { NumbersRise states.old.items }
    requires made { AllAreMade (F.made fold.now) states.old.items }
    requires few { total (F.number fold.now) states.old.items + 1 < 2 ^ 62 }
    ensures added { OnOk result ((pane : ℕ) → ((d : ℕ × F.State) → (get_or states.old.items (length states.old.items - 1) d).0 ≡ pane)
        → states.new.items ≡ added nat_cmp (F.none fold.now) (F.joined fold.now) pane (F.unit fold.now t.now) states.old.items) }
    ensures rises { NumbersRise states.new.items }
    ensures made { OnOk result (AllAreMade (F.made fold.now) states.new.items) }
    ensures total { OnOk result (total (F.number fold.now) states.new.items ≡ total (F.number fold.now) states.old.items + 1) }
    ensures err { OnErr result (states.new.items ≡ states.old.items) }
{
    let last = states.len() - 1;
    fold.add(&mut states[last].1, t)
}

/// Whether the last state is that of a pane after another.
fn ends_past<S>(states: &VecDeque<(u64, S)>, pane: u64) -> bool
    ensures { (d : ℕ × S) → result ≡ false → 0 < length states.now.items → (get_or states.now.items (length states.now.items - 1) d).0 ≤ pane }
{
    match states.back() {
        Some(entry) => pane < entry.0,
        None => false,
    }
}

/// The join of the states of a block, from a place on.
fn block_at<F: Fold>(
    fold: &F,
    states: &VecDeque<(u64, F::State)>,
    at: usize,
) -> Result<F::State, AllocError>
    requires room { at + 64 < length states.now.items }
    requires made { AllAreMade (F.made fold.now) states.now.items }
    requires few { total (F.number fold.now) states.now.items < 2 ^ 62 }
    ensures { IfOk result (IsJoin (F.none fold.now) (F.joined fold.now) (F.made fold.now) (F.number fold.now) (take 64 (drop at states.now.items))) }
{
    let mut block = fold.empty()?;
    let end = at + BLOCK;
    for i in at..end {
        fold.take_in(&mut block, &states[i].1)?;
    }
    Ok(block)
}

/// Joins one more block, where enough states stand between the others and the last state.
fn grow_blocks<F: Fold>(fold: &F, line: &mut Line<F::State>) -> Result<(), AllocError>
    requires made { AllAreMade (F.made fold.now) line.old.states.items }
    requires few { total (F.number fold.now) line.old.states.items < 2 ^ 62 }
    ensures states { line.new.states.items ≡ line.old.states.items }
    ensures blocks { AreBlocks 64 (IsJoin (F.none fold.now) (F.joined fold.now) (F.made fold.now) (F.number fold.now)) line.old.blocks.items (drop line.old.ahead line.old.states.items)
        → AreBlocks 64 (IsJoin (F.none fold.now) (F.joined fold.now) (F.made fold.now) (F.number fold.now)) line.new.blocks.items (drop line.new.ahead line.new.states.items) }
{
    let at = line.blocks.len() as u128 * BLOCK as u128 + line.ahead as u128;
    if line.states.len() as u128 <= at + BLOCK as u128 {
        return Ok(());
    }
    let block = block_at(fold, &line.states, at as usize)?;
    line.blocks.push(block)?;
    Ok(())
}

/// Before a tuple is added to a pane that isn't the last: one more block is joined, and none stays where a later pane has a state.
fn ready_blocks<F: Fold>(fold: &F, line: &mut Line<F::State>, pane: u64) -> Result<(), AllocError>
    requires made { AllAreMade (F.made fold.now) line.old.states.items }
    requires few { total (F.number fold.now) line.old.states.items < 2 ^ 62 }
    ensures states { line.new.states.items ≡ line.old.states.items }
    ensures blocks { AreBlocks 64 (IsJoin (F.none fold.now) (F.joined fold.now) (F.made fold.now) (F.number fold.now)) line.old.blocks.items (drop line.old.ahead line.old.states.items)
        → AreBlocks 64 (IsJoin (F.none fold.now) (F.joined fold.now) (F.made fold.now) (F.number fold.now)) line.new.blocks.items (drop line.new.ahead line.new.states.items) }
    ensures added { (u : F.State) → AreBlocks 64 (IsJoin (F.none fold.now) (F.joined fold.now) (F.made fold.now) (F.number fold.now)) line.old.blocks.items (drop line.old.ahead line.old.states.items)
        → AreBlocks 64 (IsJoin (F.none fold.now) (F.joined fold.now) (F.made fold.now) (F.number fold.now)) line.new.blocks.items (drop line.new.ahead (added nat_cmp (F.none fold.now) (F.joined fold.now) pane u line.new.states.items)) }
{
    if ends_past(&line.states, pane) {
        line.blocks.clear();
        return Ok(());
    }
    grow_blocks(fold, line)
}

/// The state of a pane becomes its join with that of a tuple, in place; after want of memory nothing changed. Most tuples fall into
/// the last pane: there no state is sought, and the blocks stay as they are.
pub fn add_to_line<F: Fold>(
    fold: &F,
    line: &mut Line<F::State>,
    pane: u64,
    t: &Tuple,
) -> Result<(), AllocError>
    requires made { AllAreMade (F.made fold.now) line.old.states.items }
    requires few { total (F.number fold.now) line.old.states.items + 1 < 2 ^ 62 }
    ensures added { OnOk result (line.new.states.items ≡ added nat_cmp (F.none fold.now) (F.joined fold.now) pane (F.unit fold.now t.now) line.old.states.items) }
    ensures made { OnOk result (AllAreMade (F.made fold.now) line.new.states.items) }
    ensures total { OnOk result (total (F.number fold.now) line.new.states.items ≡ total (F.number fold.now) line.old.states.items + 1) }
    ensures err { OnErr result (line.new.states.items ≡ line.old.states.items) }
    ensures blocks { AreBlocks 64 (IsJoin (F.none fold.now) (F.joined fold.now) (F.made fold.now) (F.number fold.now)) line.old.blocks.items (drop line.old.ahead line.old.states.items)
        → AreBlocks 64 (IsJoin (F.none fold.now) (F.joined fold.now) (F.made fold.now) (F.number fold.now)) line.new.blocks.items (drop line.new.ahead line.new.states.items) }
{
    if ends_at(&line.states, pane) {
        return add_to_last(fold, &mut line.states, t);
    }
    ready_blocks(fold, line, pane)?;
    add_state(fold, &mut line.states, pane, t)
}

/// The line of one tuple.
pub fn line_of_one<F: Fold>(
    alloc: Global,
    fold: &F,
    pane: u64,
    t: &Tuple,
) -> Result<Line<F::State>, AllocError>
    ensures value { IfOk result (λ line. line.states.items ≡ added nat_cmp (F.none fold.now) (F.joined fold.now) pane (F.unit fold.now t.now) []) }
    ensures made { IfOk result (λ line. AllAreMade (F.made fold.now) line.states.items) }
    ensures total { IfOk result (λ line. total (F.number fold.now) line.states.items ≡ 1) }
    ensures blocks { IfOk result (λ line. line.blocks.items ≡ []) }
{
    let mut states = VecDeque::new(alloc);
    let one = fold.one(t)?;
    states.push_back((pane, one))?;
    Ok(Line {
        states,
        ahead: 0,
        blocks: Vec::new(alloc),
    })
}

/// Whether the first state is that of a pane before a number.
fn begins_before<S>(states: &VecDeque<(u64, S)>, pane: u128) -> bool
    ensures { result ≡ begins_before pane states.now.items }
{
    match states.front() {
        Some(entry) => u128::from(entry.0) < pane,
        None => false,
    }
}

/// Takes out the first state.
fn drop_first<F: Fold>(fold: &F, line: &mut Line<F::State>)
    ensures states { line.new.states.items ≡ drop 1 line.old.states.items }
    ensures blocks { AreBlocks 64 (IsJoin (F.none fold.now) (F.joined fold.now) (F.made fold.now) (F.number fold.now)) line.old.blocks.items (drop line.old.ahead line.old.states.items)
        → AreBlocks 64 (IsJoin (F.none fold.now) (F.joined fold.now) (F.made fold.now) (F.number fold.now)) line.new.blocks.items (drop line.new.ahead line.new.states.items) }
{
    line.states.pop_front();
    if line.ahead > 0 {
        line.ahead -= 1;
        return;
    }
    if line.blocks.is_empty() {
        return;
    }
    line.blocks.remove(0);
    line.ahead = BLOCK - 1;
}

/// Takes out the states of all panes before a number, and says whether others are left.
pub fn keep_from<F: Fold>(fold: &F, line: &mut Line<F::State>, pane: u128) -> bool
    ensures kept { line.new.states.items ≡ filter (λ e. nat_le pane e.0) line.old.states.items }
    ensures none { result ≡ false → line.new.states.items ≡ [] }
    ensures blocks { AreBlocks 64 (IsJoin (F.none fold.now) (F.joined fold.now) (F.made fold.now) (F.number fold.now)) line.old.blocks.items (drop line.old.ahead line.old.states.items)
        → AreBlocks 64 (IsJoin (F.none fold.now) (F.joined fold.now) (F.made fold.now) (F.number fold.now)) line.new.blocks.items (drop line.new.ahead line.new.states.items) }
{
    while begins_before(&line.states, pane) {
        drop_first(fold, line);
    }
    !line.states.is_empty()
}

/// A state that may be there becomes its join with another.
fn joined_to<F: Fold>(
    fold: &F,
    joined: Option<F::State>,
    state: &F::State,
) -> Result<Option<F::State>, AllocError>
    requires made { IsMadeIf (F.made fold.now) joined }
    requires made_state { F.made fold.now state.now }
    requires few { number_if (F.number fold.now) joined + F.number fold.now state.now < 2 ^ 62 }
    ensures value { IfOk result (λ o. o ≡ Some (F.joined fold.now (unwrap_or joined (F.none fold.now)) state.now)) }
    ensures made { IfOk result (λ o. IsMadeIf (F.made fold.now) o) }
    ensures few { IfOk result (λ o. number_if (F.number fold.now) o ≤ number_if (F.number fold.now) joined + F.number fold.now state.now) }
{
    match joined {
        None => Ok(Some(fold.copy_state(state)?)),
        Some(mut own) => {
            fold.take_in(&mut own, state)?;
            Ok(Some(own))
        }
    }
}

/// Whether the window that starts at a tick covers a pane.
fn is_within(window: WindowSpec, width: u64, shift: u64, start: u64, pane: u64) -> bool
    requires { shift ≡ shift_of window width }
    ensures { result ≡ within window width start pane }
{
    let first = u128::from(start) + u128::from(shift);
    let tick = u128::from(pane) * u128::from(width);
    first <= tick && tick < first + u128::from(window.size)
}

/// The place of the first of some states in a row that the window that starts at a tick covers; the row's end, where there
/// is none.
fn first_within<S>(
    states: &VecDeque<(u64, S)>,
    from: usize,
    to: usize,
    window: WindowSpec,
    width: u64,
    shift: u64,
    start: u64,
) -> usize
    requires shift { shift ≡ shift_of window width }
    requires order { from ≤ to }
    requires room { to ≤ length states.now.items }
    ensures order { (from ≤ result) × (result ≤ to) }
    ensures covered { (d : ℕ × S) → result < to → within window width start (get_or states.now.items result d).0 ≡ true }
    ensures before { (none : S) (join : S → S → S) (o : Option S) → joined_within none join window width start o (drop result states.now.items)
        ≡ joined_within none join window width start o (drop from states.now.items) }
{
    for at in from..to {
        if is_within(window, width, shift, start, states[at].0) {
            return at;
        }
    }
    to
}

/// The place behind the last of some states in a row that the window that starts at a tick covers, where it covers the first
/// of them; that one isn't looked at again.
fn end_within<S>(
    states: &VecDeque<(u64, S)>,
    from: usize,
    to: usize,
    window: WindowSpec,
    width: u64,
    shift: u64,
    start: u64,
) -> usize
    requires shift { shift ≡ shift_of window width }
    requires order { from ≤ to }
    requires room { to ≤ length states.now.items }
    requires first { (d : ℕ × S) → from < to → within window width start (get_or states.now.items from d).0 ≡ true }
    ensures order { (from ≤ result) × (result ≤ to) }
    ensures some { from < to → from < result }
    ensures covered { (d : ℕ × S) → from < result → within window width start (get_or states.now.items (result - 1) d).0 ≡ true }
    ensures after { (none : S) (join : S → S → S) (o : Option S) → joined_within none join window width start o (drop to states.now.items)
        ≡ joined_within none join window width start o (drop result states.now.items) }
{
    let mut end = to;
    while end - from > 1 {
        if is_within(window, width, shift, start, states[end - 1].0) {
            return end;
        }
        end -= 1;
    }
    end
}

/// Of some states in a row those that the window that starts at a tick covers are joined to a state, in place. They stand
/// side by side, as the numbers of panes rise, so that none between the first and the last of them has to be looked at.
fn take_in_through<F: Fold>(
    fold: &F,
    own: &mut F::State,
    states: &VecDeque<(u64, F::State)>,
    from: usize,
    to: usize,
    window: WindowSpec,
    width: u64,
    shift: u64,
    start: u64,
) -> Result<(), AllocError>
    requires shift { shift ≡ shift_of window width }
    requires rises { NumbersRise states.now.items }
    requires order { from ≤ to }
    requires room { to ≤ length states.now.items }
    requires made { F.made fold.now own.old × AllAreMade (F.made fold.now) states.now.items }
    requires few { F.number fold.now own.old + total (F.number fold.now) (drop from states.now.items) < 2 ^ 62 }
    ensures value { OnOk result (joined_within (F.none fold.now) (F.joined fold.now) window width start (Some own.new) (drop to states.now.items)
        ≡ joined_within (F.none fold.now) (F.joined fold.now) window width start (Some own.old) (drop from states.now.items)) }
    ensures made { OnOk result (F.made fold.now own.new) }
    ensures few { OnOk result (F.number fold.now own.new + total (F.number fold.now) (drop to states.now.items)
        ≤ F.number fold.now own.old + total (F.number fold.now) (drop from states.now.items)) }
{
    let first = first_within(states, from, to, window, width, shift, start);
    let end = end_within(states, first, to, window, width, shift, start);
    take_in_row(fold, own, states, first, end)
}

/// The join of those of some states in a row that the window that starts at a tick covers, where there is one.
#[inline(always)]
fn joined_of<F: Fold>(
    fold: &F,
    states: &VecDeque<(u64, F::State)>,
    from: usize,
    to: usize,
    window: WindowSpec,
    width: u64,
    shift: u64,
    start: u64,
) -> Result<Option<F::State>, AllocError>
    requires shift { shift ≡ shift_of window width }
    requires rises { NumbersRise states.now.items }
    requires order { from ≤ to }
    requires room { to ≤ length states.now.items }
    requires made { AllAreMade (F.made fold.now) states.now.items }
    requires few { total (F.number fold.now) (drop from states.now.items) < 2 ^ 62 }
    ensures value { IfOk result (λ o. joined_within (F.none fold.now) (F.joined fold.now) window width start o (drop to states.now.items)
        ≡ joined_within (F.none fold.now) (F.joined fold.now) window width start None (drop from states.now.items)) }
    ensures made { IfOk result (λ o. IsMadeIf (F.made fold.now) o) }
    ensures few { IfOk result (λ o. number_if (F.number fold.now) o + total (F.number fold.now) (drop to states.now.items)
        ≤ total (F.number fold.now) (drop from states.now.items)) }
{
    let at = first_within(states, from, to, window, width, shift, start);
    if at == to {
        return Ok(None);
    }
    let next = at + 1;
    let end = end_within(states, at, to, window, width, shift, start);
    let mut own = fold.copy_state(&states[at].1)?;
    take_in_row(fold, &mut own, states, next, end)?;
    Ok(Some(own))
}

/// Of some states in a row those that the window that starts at a tick covers, joined to one that may be there.
#[inline(always)]
fn joined_through<F: Fold>(
    fold: &F,
    joined: Option<F::State>,
    states: &VecDeque<(u64, F::State)>,
    from: usize,
    to: usize,
    window: WindowSpec,
    width: u64,
    shift: u64,
    start: u64,
) -> Result<Option<F::State>, AllocError>
    requires shift { shift ≡ shift_of window width }
    requires rises { NumbersRise states.now.items }
    requires order { from ≤ to }
    requires room { to ≤ length states.now.items }
    requires made { IsMadeIf (F.made fold.now) joined × AllAreMade (F.made fold.now) states.now.items }
    requires few { number_if (F.number fold.now) joined + total (F.number fold.now) (drop from states.now.items) < 2 ^ 62 }
    ensures value { IfOk result (λ o. joined_within (F.none fold.now) (F.joined fold.now) window width start o (drop to states.now.items)
        ≡ joined_within (F.none fold.now) (F.joined fold.now) window width start joined (drop from states.now.items)) }
    ensures made { IfOk result (λ o. IsMadeIf (F.made fold.now) o) }
    ensures few { IfOk result (λ o. number_if (F.number fold.now) o + total (F.number fold.now) (drop to states.now.items)
        ≤ number_if (F.number fold.now) joined + total (F.number fold.now) (drop from states.now.items)) }
{
    match joined {
        None => joined_of(fold, states, from, to, window, width, shift, start),
        Some(mut own) => {
            take_in_through(
                fold, &mut own, states, from, to, window, width, shift, start,
            )?;
            Ok(Some(own))
        }
    }
}

/// The same of the states of a block, from a place on.
fn with_block<F: Fold>(
    fold: &F,
    joined: Option<F::State>,
    block: &F::State,
    states: &VecDeque<(u64, F::State)>,
    at: usize,
    window: WindowSpec,
    width: u64,
    shift: u64,
    start: u64,
) -> Result<Option<F::State>, AllocError>
    requires shift { shift ≡ shift_of window width }
    requires rises { NumbersRise states.now.items }
    requires room { at + 64 < length states.now.items }
    requires block { IsJoin (F.none fold.now) (F.joined fold.now) (F.made fold.now) (F.number fold.now) (take 64 (drop at states.now.items)) block.now }
    requires made { IsMadeIf (F.made fold.now) joined × AllAreMade (F.made fold.now) states.now.items }
    requires few { number_if (F.number fold.now) joined + total (F.number fold.now) (drop at states.now.items) < 2 ^ 62 }
    ensures value { IfOk result (λ o. joined_within (F.none fold.now) (F.joined fold.now) window width start o (drop (at + 64) states.now.items)
        ≡ joined_within (F.none fold.now) (F.joined fold.now) window width start joined (drop at states.now.items)) }
    ensures made { IfOk result (λ o. IsMadeIf (F.made fold.now) o) }
    ensures few { IfOk result (λ o. number_if (F.number fold.now) o + total (F.number fold.now) (drop (at + 64) states.now.items)
        ≤ number_if (F.number fold.now) joined + total (F.number fold.now) (drop at states.now.items)) }
{
    let first = is_within(window, width, shift, start, states[at].0);
    let last = is_within(window, width, shift, start, states[at + (BLOCK - 1)].0);
    if first && last {
        return joined_to(fold, joined, block);
    }
    let end = at + BLOCK;
    joined_through(fold, joined, states, at, end, window, width, shift, start)
}

/// The join of the states that the window that starts at a tick covers, where there is one, by the blocks.
fn joined_by_blocks<F: Fold>(
    fold: &F,
    line: &Line<F::State>,
    window: WindowSpec,
    width: u64,
    shift: u64,
    start: u64,
) -> Result<Option<F::State>, AllocError>
    requires shift { shift ≡ shift_of window width }
    requires within { line.now.ahead ≤ length line.now.states.items }
    requires blocks { AreBlocks 64 (IsJoin (F.none fold.now) (F.joined fold.now) (F.made fold.now) (F.number fold.now)) line.now.blocks.items (drop line.now.ahead line.now.states.items) }
    requires made { AllAreMade (F.made fold.now) line.now.states.items }
    requires few { total (F.number fold.now) line.now.states.items < 2 ^ 62 }
    ensures value { IfOk result (λ o. o ≡ joined_within (F.none fold.now) (F.joined fold.now) window width start None line.now.states.items) }
    ensures made { IfOk result (λ o. IsMadeIf (F.made fold.now) o) }
    ensures few { IfOk result (λ o. number_if (F.number fold.now) o ≤ total (F.number fold.now) line.now.states.items) }
{
    let states = &line.states;
    let count = states.len();
    let mut at = line.ahead;
    let mut joined = joined_of(fold, states, 0, at, window, width, shift, start)?;
    for k in 0..line.blocks.len() {
        let block = &line.blocks[k];
        joined = with_block(fold, joined, block, states, at, window, width, shift, start)?;
        at += BLOCK;
    }
    joined_through(fold, joined, states, at, count, window, width, shift, start)
}

/// A state that may be there, of its own.
fn owned<'a, S: Drop>(state: Option<S>) -> Option<Joined<'a, S>>
    ensures { result ≡ state }
{
    match state {
        None => None,
        Some(own) => Some(Joined::own(own)),
    }
}

/// The join of the states that the window that starts at a tick covers, where there is one; by the blocks, if so told and
/// where there are some. A state that it covers alone is lent.
pub fn joined_in<'a, F: Fold>(
    fold: &F,
    line: &'a Line<F::State>,
    by_blocks: bool,
    window: WindowSpec,
    width: u64,
    shift: u64,
    start: u64,
) -> Result<Option<Joined<'a, F::State>>, AllocError>
    requires shift { shift ≡ shift_of window width }
    requires blocks { by_blocks ≡ true → AreBlocks 64 (IsJoin (F.none fold.now) (F.joined fold.now) (F.made fold.now) (F.number fold.now)) line.now.blocks.items (drop line.now.ahead line.now.states.items) }
    requires made { AllAreMade (F.made fold.now) line.now.states.items }
    requires few { total (F.number fold.now) line.now.states.items < 2 ^ 62 }
    ensures value { IfOk result (λ o. o ≡ joined_within (F.none fold.now) (F.joined fold.now) window width start None line.now.states.items) }
    ensures made { IfOk result (λ o. IsMadeIf (F.made fold.now) o) }
    ensures few { IfOk result (λ o. number_if (F.number fold.now) o ≤ total (F.number fold.now) line.now.states.items) }
{
    if by_blocks && !line.blocks.is_empty() {
        let own = joined_by_blocks(fold, line, window, width, shift, start)?;
        return Ok(owned(own));
    }
    let states = &line.states;
    let count = states.len();
    let at = first_within(states, 0, count, window, width, shift, start);
    if at == count {
        return Ok(None);
    }
    let next = at + 1;
    let end = end_within(states, at, count, window, width, shift, start);
    if end == next {
        return Ok(Some(Joined::lent(&states[at].1)));
    }
    let own = joined_of(fold, states, at, end, window, width, shift, start)?;
    Ok(owned(own))
}
