//! Tuples with running states.

ghost use Rattle.std.specs.Prelude.{◌≡◌, ◌+◌, ◌^◌, ◌<◌, ◌++◌, ◌∷◌, [], Some, None, IfOk, IfSome, OnOk, drop, length};
ghost use Rattle.sq_lists.specs.Sides.{left_with, recent, right_with};
ghost use Rattle.sq_running.specs.Running.{AreHeads, IfFirst, IsRunning, IsSum, before_first, joined_behind, first_number, first_state, followed};
ghost use Rattle.sq_aggfn.specs.Folds.{number_if};

use sq_aggfn::Fold;
use sq_lists::begins_past;
use sq_value::{Fields, Tuple};
use std::alloc::{AllocError, Global};
use std::collections::VecDeque;

/// The right tuples that are held, first to last. Each of the first ones has a state, of it and of those behind it as far
/// as they have one; the others have one state together. So what is told of all of them is joined from two states, and a
/// tuple that goes takes one state with it.
#[derive(Drop)]
pub struct Held<S: Drop> {
    pub tuples: VecDeque<Tuple>,
    pub heads: VecDeque<S>,
    pub tail: Option<S>,
}

impl<S: Drop> Held<S> {
    /// No tuple.
    pub fn new(alloc: Global) -> Held<S>
        ensures { (result.tuples.items ≡ []) × (result.heads.items ≡ []) × (result.tail ≡ None) }
    {
        Held {
            tuples: VecDeque::new(alloc),
            heads: VecDeque::new(alloc),
            tail: None,
        }
    }

    /// All tuples go.
    pub fn clear(&mut self)
        ensures { (self.new.tuples.items ≡ []) × (self.new.heads.items ≡ []) × (self.new.tail ≡ None) }
    {
        self.tuples.clear();
        self.heads.clear();
        self.tail = None;
    }
}

/// The state of a tuple and then of those of the first state.
fn head_with<F: Fold>(
    fold: &F,
    x: &Tuple,
    heads: &VecDeque<F::State>,
) -> Result<F::State, AllocError>
    requires { IfFirst (λ s. F.made fold.now s × (F.number fold.now s + 1 < 2 ^ 62)) heads.now.items }
    ensures value { IfOk result (λ s. s ≡ before_first (F.joined fold.now) (F.unit fold.now x.now) heads.now.items) }
    ensures made { IfOk result (λ s. F.made fold.now s × (F.number fold.now s ≡ 1 + first_number (F.number fold.now) heads.now.items)) }
{
    let mut state = fold.one(x)?;
    match heads.front() {
        None => Ok(state),
        Some(next) => {
            fold.take_in(&mut state, next)?;
            Ok(state)
        }
    }
}

/// The first state, or that of no tuple.
fn first_state<F: Fold>(fold: &F, heads: &VecDeque<F::State>) -> Result<F::State, AllocError>
    requires { IfFirst (F.made fold.now) heads.now.items }
    ensures value { IfOk result (λ s. s ≡ first_state (F.none fold.now) heads.now.items) }
    ensures made { IfOk result (λ s. F.made fold.now s × (F.number fold.now s ≡ first_number (F.number fold.now) heads.now.items)) }
{
    match heads.front() {
        None => fold.empty(),
        Some(first) => fold.copy_state(first),
    }
}

/// The state of a state's tuples and then of the tail's.
fn with_tail<F: Fold>(
    fold: &F,
    mut state: F::State,
    tail: &Option<F::State>,
) -> Result<F::State, AllocError>
    requires made { F.made fold.now state }
    requires tail { IfSome tail.now (F.made fold.now) }
    requires few { F.number fold.now state + number_if (F.number fold.now) tail.now < 2 ^ 62 }
    ensures value { IfOk result (λ s. s ≡ followed (F.joined fold.now) state tail.now) }
    ensures made { IfOk result (F.made fold.now) }
{
    match tail {
        None => Ok(state),
        Some(more) => {
            fold.take_in(&mut state, more)?;
            Ok(state)
        }
    }
}

/// The state of the tail's tuples and then of one more.
fn tail_with<F: Fold>(fold: &F, tail: Option<F::State>, x: &Tuple) -> Result<F::State, AllocError>
    requires { IfSome tail (λ s. F.made fold.now s × (F.number fold.now s + 1 < 2 ^ 62)) }
    ensures value { IfOk result (λ s. s ≡ joined_behind (F.joined fold.now) (F.unit fold.now x.now) tail) }
    ensures made { IfOk result (λ s. F.made fold.now s × (F.number fold.now s ≡ number_if (F.number fold.now) tail + 1)) }
{
    match tail {
        None => fold.one(x),
        Some(mut state) => {
            fold.add(&mut state, x)?;
            Ok(state)
        }
    }
}

/// Gives each tuple a state of its own, where none has one.
fn renew<F: Fold>(fold: &F, held: &mut Held<F::State>) -> Result<(), AllocError>
    requires none { held.old.heads.items ≡ [] }
    requires few { length held.old.tuples.items < 2 ^ 62 }
    ensures tuples { held.new.tuples.items ≡ held.old.tuples.items }
    ensures heads { OnOk result (AreHeads (IsSum (F.joined fold.now) (F.unit fold.now) (F.none fold.now) (F.made fold.now) (F.number fold.now)) held.old.tuples.items held.new.heads.items) }
    ensures tail { OnOk result (held.new.tail ≡ None) }
{
    held.tail = None;
    let count = held.tuples.len();
    for i in 0..count {
        let state = head_with(fold, &held.tuples[count - 1 - i], &held.heads)?;
        held.heads.push_front(state)?;
    }
    Ok(())
}

/// Sees to it that the first tuple has a state of its own.
fn with_first<F: Fold>(fold: &F, held: &mut Held<F::State>) -> Result<(), AllocError>
    requires runs { IsRunning (IsSum (F.joined fold.now) (F.unit fold.now) (F.none fold.now) (F.made fold.now) (F.number fold.now)) held.old.tuples.items held.old.heads.items held.old.tail }
    requires some { 0 < length held.old.tuples.items }
    ensures tuples { held.new.tuples.items ≡ held.old.tuples.items }
    ensures runs { OnOk result (IsRunning (IsSum (F.joined fold.now) (F.unit fold.now) (F.none fold.now) (F.made fold.now) (F.number fold.now)) held.new.tuples.items held.new.heads.items held.new.tail) }
    ensures first { OnOk result (0 < length held.new.heads.items) }
{
    if !held.heads.is_empty() {
        return Ok(());
    }
    renew(fold, held)
}

/// Lets go of the first tuple.
fn drop_first<F: Fold>(fold: &F, held: &mut Held<F::State>) -> Result<(), AllocError>
    requires runs { IsRunning (IsSum (F.joined fold.now) (F.unit fold.now) (F.none fold.now) (F.made fold.now) (F.number fold.now)) held.old.tuples.items held.old.heads.items held.old.tail }
    requires some { 0 < length held.old.tuples.items }
    ensures tuples { OnOk result (held.new.tuples.items ≡ drop 1 held.old.tuples.items) }
    ensures runs { OnOk result (IsRunning (IsSum (F.joined fold.now) (F.unit fold.now) (F.none fold.now) (F.made fold.now) (F.number fold.now)) held.new.tuples.items held.new.heads.items held.new.tail) }
{
    with_first(fold, held)?;
    held.heads.pop_front();
    held.tuples.pop_front();
    Ok(())
}

/// Lets go of the first tuples, as long as they are more than `size` ticks before a time.
pub fn let_go<F: Fold>(
    fold: &F,
    held: &mut Held<F::State>,
    size: u64,
    now: u64,
) -> Result<(), AllocError>
    requires { IsRunning (IsSum (F.joined fold.now) (F.unit fold.now) (F.none fold.now) (F.made fold.now) (F.number fold.now)) held.old.tuples.items held.old.heads.items held.old.tail }
    ensures tuples { OnOk result (held.new.tuples.items ≡ recent size now held.old.tuples.items) }
    ensures runs { OnOk result (IsRunning (IsSum (F.joined fold.now) (F.unit fold.now) (F.none fold.now) (F.made fold.now) (F.number fold.now)) held.new.tuples.items held.new.heads.items held.new.tail) }
{
    while begins_past(&held.tuples, size, now) {
        drop_first(fold, held)?;
    }
    Ok(())
}

/// Holds a tuple behind the others.
pub fn push<F: Fold>(fold: &F, held: &mut Held<F::State>, x: Tuple) -> Result<(), AllocError>
    requires runs { IsRunning (IsSum (F.joined fold.now) (F.unit fold.now) (F.none fold.now) (F.made fold.now) (F.number fold.now)) held.old.tuples.items held.old.heads.items held.old.tail }
    requires few { length held.old.tuples.items + 1 < 2 ^ 62 }
    ensures tuples { OnOk result (held.new.tuples.items ≡ held.old.tuples.items ++ x ∷ []) }
    ensures runs { OnOk result (IsRunning (IsSum (F.joined fold.now) (F.unit fold.now) (F.none fold.now) (F.made fold.now) (F.number fold.now)) held.new.tuples.items held.new.heads.items held.new.tail) }
{
    let tail = held.tail.take();
    held.tail = Some(tail_with(fold, tail, &x)?);
    held.tuples.push_back(x)?;
    Ok(())
}

/// The fold's answers over all tuples.
pub fn answers_held<F: Fold>(fold: &F, held: &Held<F::State>) -> Result<Fields, AllocError>
    requires { IsRunning (IsSum (F.joined fold.now) (F.unit fold.now) (F.none fold.now) (F.made fold.now) (F.number fold.now)) held.now.tuples.items held.now.heads.items held.now.tail }
    ensures answers { IfOk result (λ fields. fields ≡ F.table fold.now held.now.tuples.items) }
    ensures width { IfOk result (λ fields. length fields ≡ F.width fold.now) }
{
    let first = first_state(fold, &held.heads)?;
    let state = with_tail(fold, first, &held.tail)?;
    fold.answer(&state)
}

/// Holds a tuple of a side behind the others; side 0 is the left one.
pub fn hold<F: Fold>(
    fold: &F,
    waiting: &mut VecDeque<Tuple>,
    held: &mut Held<F::State>,
    side: u32,
    x: Tuple,
) -> Result<(), AllocError>
    requires runs { IsRunning (IsSum (F.joined fold.now) (F.unit fold.now) (F.none fold.now) (F.made fold.now) (F.number fold.now)) held.old.tuples.items held.old.heads.items held.old.tail }
    requires few { length held.old.tuples.items + 1 < 2 ^ 62 }
    ensures waiting { OnOk result (waiting.new.items ≡ left_with side x waiting.old.items) }
    ensures held { OnOk result (held.new.tuples.items ≡ right_with side x held.old.tuples.items) }
    ensures runs { OnOk result (IsRunning (IsSum (F.joined fold.now) (F.unit fold.now) (F.none fold.now) (F.made fold.now) (F.number fold.now)) held.new.tuples.items held.new.heads.items held.new.tail) }
{
    if side != 0 {
        return push(fold, held, x);
    }
    waiting.push_back(x)?;
    Ok(())
}
