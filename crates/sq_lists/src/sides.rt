//! The two sides of a Join, and the pairs of a tuple that comes.

ghost use Rattle.std.specs.Prelude.{◌≡◌, ◌++◌, ◌∷◌, [], IfOk, OnErr, OnOk};
ghost use Rattle.std.specs.List.{filter};
ghost use Rattle.std.specs.Option.{option_to_list};
ghost use Rattle.sq_expr.specs.Expressions.{holds_of, pair_of};
ghost use Rattle.sq_lists.specs.Sides.{against, begins_past, left_with, pairs_with, recent, right_with};

use sq_expr::{Typed, holds_pair};
use sq_value::{ListOf, Tuple, Value, copy_value};
use std::alloc::{AllocError, Global};
use std::collections::VecDeque;

fn push_copies(values: &[Value], copies: &mut Vec<Value>) -> Result<(), AllocError>
    ensures { OnOk result (copies.new.items ≡ copies.old.items ++ values.now) }
{
    for v in values {
        copies.push(copy_value(v)?)?;
    }
    Ok(())
}

/// A left and a right tuple in one, at the later of their times: the left one's fields stand first.
fn pair(alloc: Global, left: &Tuple, right: &Tuple) -> Result<Tuple, AllocError>
    ensures { IfOk result (λ p. p ≡ pair_of left.now right.now) }
{
    let (first, second) = (left.fields.as_slice(), right.fields.as_slice());
    let mut fields = Vec::with_capacity(alloc, first.len() + second.len())?;
    push_copies(first, &mut fields)?;
    push_copies(second, &mut fields)?;
    Ok(Tuple {
        time: left.time.max(right.time),
        fields: ListOf::new(fields),
    })
}

/// A left and a right tuple in one, if the pair passes.
fn pair_if(
    alloc: Global,
    on: &Typed,
    left: &Tuple,
    right: &Tuple,
) -> Result<Option<Tuple>, AllocError>
    ensures { IfOk result (λ o. option_to_list o ≡ filter (holds_of on.now.tree) (pair_of left.now right.now ∷ [])) }
{
    if !holds_pair(on, left, right) {
        return Ok(None);
    }
    let pair = pair(alloc, left, right)?;
    Ok(Some(pair))
}

/// A tuple that comes at a side in one with a tuple of the other side, if `on` is true of the pair: only then it is built.
/// Side 0 is the left one.
pub fn passing_pair(
    alloc: Global,
    on: &Typed,
    side: u32,
    x: &Tuple,
    other: &Tuple,
) -> Result<Option<Tuple>, AllocError>
    ensures { IfOk result (λ o. option_to_list o ≡ pairs_with on.now.tree side x.now (other.now ∷ [])) }
{
    if side == 0 {
        pair_if(alloc, on, x, other)
    } else {
        pair_if(alloc, on, other, x)
    }
}

/// The tuples of each side that a later one can still meet, in the order in which they came.
#[derive(Drop)]
pub struct Sides {
    pub left: VecDeque<Tuple>,
    pub right: VecDeque<Tuple>,
}

/// Whether the first tuple is more than `size` ticks before a time.
pub fn begins_past(held: &VecDeque<Tuple>, size: u64, now: u64) -> bool
    ensures { result ≡ begins_past size now held.now.items }
{
    match held.front() {
        Some(x) => now.saturating_sub(x.time) > size,
        None => false,
    }
}

fn let_go(held: &mut VecDeque<Tuple>, size: u64, now: u64)
    ensures { held.new.items ≡ recent size now held.old.items }
{
    while begins_past(held, size, now) {
        held.pop_front();
    }
}

impl Sides {
    /// Nothing is held.
    pub fn new(alloc: Global) -> Sides
        ensures { (result.left.items ≡ []) × (result.right.items ≡ []) }
    {
        Sides {
            left: VecDeque::new(alloc),
            right: VecDeque::new(alloc),
        }
    }

    /// Lets go of the first tuples of each side, as long as they are more than `size` ticks before a time.
    pub fn let_go(&mut self, size: u64, now: u64)
        ensures left { self.new.left.items ≡ recent size now self.old.left.items }
        ensures right { self.new.right.items ≡ recent size now self.old.right.items }
    {
        let_go(&mut self.left, size, now);
        let_go(&mut self.right, size, now);
    }

    /// What is held of the other side.
    pub fn against(&self, side: u32) -> &VecDeque<Tuple>
        ensures { result.now.items ≡ against side self.now.left.items self.now.right.items }
    {
        if side == 0 { &self.right } else { &self.left }
    }

    /// Holds a tuple of a side behind the others.
    pub fn hold(&mut self, side: u32, x: Tuple) -> Result<(), AllocError>
        ensures left { OnOk result (self.new.left.items ≡ left_with side x self.old.left.items) }
        ensures right { OnOk result (self.new.right.items ≡ right_with side x self.old.right.items) }
        ensures err { OnErr result ((self.new.left.items ≡ self.old.left.items) × (self.new.right.items ≡ self.old.right.items)) }
    {
        if side == 0 {
            self.left.push_back(x)?;
        } else {
            self.right.push_back(x)?;
        }
        Ok(())
    }
}
