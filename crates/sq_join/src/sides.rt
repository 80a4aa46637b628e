//! Giving the pairs of a tuple with what is held of the other side.

ghost use Rattle.std.specs.Prelude.{◌≡◌, ◌∷◌, [], IfSome, OnOk};
ghost use Rattle.std.specs.List.{AllByRecursion};
ghost use Rattle.sq_expr.specs.Trees.{Expr};
ghost use Rattle.sq_lists.specs.Sides.{against, left_with, pair_at, pairs_with, recent, right_with};
ghost use Rattle.sq_join.specs.Indexes.{AreOf, HasPassing, IsIndex, MayIndex};
ghost use Rattle.sq_oper.specs.Giving.{Gave, GaveSome};
ghost use Rattle.sq_oper.specs.Streams.{IsSoundTuple, things, at_zero};

use crate::index::Index;
use crate::side_indexes::{Candidates, SideIndexes};
use sq_item::{Body, Item, Sign};
use sq_lists::Sides;
use sq_oper::Outlet;
use sq_pairs::Condition;
use sq_value::Tuple;
use std::alloc::{AllocError, Global};
use std::collections::VecDeque;

/// Gives the pair of a tuple with one of the other side, if it passes.
#[inline(always)]
fn give_pair<T: Outlet>(
    alloc: Global,
    on: &Condition,
    side: u32,
    x: &Tuple,
    other: &Tuple,
    out: &mut T,
) -> Result<(), AllocError>
    requires sound { IsSoundTuple (pair_at side x.now other.now) }
    requires is_ready { T.ready out.old }
    ensures { Gave T.Outlet (λ q. at_zero q (things (pairs_with on.now.tree side x.now (other.now ∷ [])))) out.old out.new result }
{
    if let Some(pair) = on.passing_pair(alloc, side, x, other)? {
        let Tuple { time, fields } = pair;
        out.give(
            0,
            Item {
                time,
                mark: Sign::none(),
                body: Body::some(fields),
            },
        )?;
    }
    Ok(())
}

/// Gives the pairs of a tuple with those of the other side, in their order.
fn give_pairs<T: Outlet>(
    on: &Condition,
    side: u32,
    x: &Tuple,
    others: &VecDeque<Tuple>,
    out: &mut T,
) -> Result<(), AllocError>
    requires sound { AllByRecursion (λ y. IsSoundTuple (pair_at side x.now y)) others.now.items }
    requires is_ready { T.ready out.old }
    ensures { GaveSome T.Outlet (λ q. at_zero q (things (pairs_with on.now.tree side x.now others.now.items))) out.old out.new result }
{
    let alloc = *others.allocator();
    for i in 0..others.len() {
        give_pair(alloc, on, side, x, &others[i], out)?;
    }
    Ok(())
}

/// Gives the pairs of a tuple with those of the other side that stand in a row of their index, in their order: with the
/// others none passes.
fn give_pairs_in_row<T: Outlet>(
    on: &Condition,
    side: u32,
    x: &Tuple,
    others: &VecDeque<Tuple>,
    index: &Index,
    row: usize,
    out: &mut T,
) -> Result<(), AllocError>
    requires index { IsIndex others.now.items index.now }
    requires passing { HasPassing on.now.tree side x.now others.now.items index.now row }
    requires sound { AllByRecursion (λ y. IsSoundTuple (pair_at side x.now y)) others.now.items }
    requires is_ready { T.ready out.old }
    ensures { GaveSome T.Outlet (λ q. at_zero q (things (pairs_with on.now.tree side x.now others.now.items))) out.old out.new result }
{
    let alloc = *others.allocator();
    let (first, positions) = (index.first, &index.rows[row]);
    for i in 0..positions.len() {
        let at = positions[i] - first;
        give_pair(alloc, on, side, x, &others[at], out)?;
    }
    Ok(())
}

/// Gives the pairs of a tuple that comes at a side with what is held of the other side, in their order.
#[inline(always)]
fn meet<T: Outlet>(
    sides: &Sides,
    indexes: &Option<SideIndexes>,
    on: &Condition,
    side: u32,
    x: &Tuple,
    out: &mut T,
) -> Result<(), AllocError>
    requires indexes { MayIndex on.now.tree sides.now.left.items sides.now.right.items indexes.now }
    requires sound { AllByRecursion (λ y. IsSoundTuple (pair_at side x.now y)) (against side sides.now.left.items sides.now.right.items) }
    requires is_ready { T.ready out.old }
    ensures { GaveSome T.Outlet (λ q. at_zero q (things (pairs_with on.now.tree side x.now (against side sides.now.left.items sides.now.right.items)))) out.old out.new result }
{
    let others = sides.against(side);
    if let Some(indexes) = indexes {
        return match indexes.candidates(side, x) {
            Candidates::All => give_pairs(on, side, x, others, out),
            Candidates::InRow(row) => {
                give_pairs_in_row(on, side, x, others, indexes.against(side), row, out)
            }
            Candidates::Nobody => Ok(()),
        };
    }
    give_pairs(on, side, x, others, out)
}

/// Takes a tuple that comes at a side into the indexes.
#[inline(always)]
pub(crate) fn push_last(indexes: &mut Option<SideIndexes>, sides: &Sides, side: u32, x: &Tuple)
    requires { IfSome indexes.old (AreOf sides.now.left.items sides.now.right.items) }
    ensures { (on : Expr) → MayIndex on sides.now.left.items sides.now.right.items indexes.old
        → MayIndex on (left_with side x.now sides.now.left.items) (right_with side x.now sides.now.right.items) indexes.new }
{
    if let Some(indexes) = indexes {
        indexes.push_last(sides, side, x);
    }
}

/// Lets go of the first tuples of each side, as long as they are more than `size` ticks before a time.
pub fn let_go(sides: &mut Sides, indexes: &mut Option<SideIndexes>, size: u64, now: u64)
    requires indexes { IfSome indexes.old (AreOf sides.old.left.items sides.old.right.items) }
    ensures left { sides.new.left.items ≡ recent size now sides.old.left.items }
    ensures right { sides.new.right.items ≡ recent size now sides.old.right.items }
    ensures indexes { (on : Expr) → MayIndex on sides.old.left.items sides.old.right.items indexes.old
        → MayIndex on sides.new.left.items sides.new.right.items indexes.new }
{
    match indexes {
        Some(indexes) => indexes.let_go(sides, size, now),
        None => sides.let_go(size, now),
    }
}

/// Gives the pairs of a tuple that comes at a side with all that is held of the other side, and holds it.
pub fn take<T: Outlet>(
    sides: &mut Sides,
    indexes: &mut Option<SideIndexes>,
    on: &Condition,
    side: u32,
    x: Tuple,
    out: &mut T,
) -> Result<(), AllocError>
    requires indexes { MayIndex on.now.tree sides.old.left.items sides.old.right.items indexes.old }
    requires sound { AllByRecursion (λ y. IsSoundTuple (pair_at side x y)) (against side sides.old.left.items sides.old.right.items) }
    requires is_ready { T.ready out.old }
    ensures left { OnOk result (sides.new.left.items ≡ left_with side x sides.old.left.items) }
    ensures right { OnOk result (sides.new.right.items ≡ right_with side x sides.old.right.items) }
    ensures indexes { OnOk result (MayIndex on.now.tree sides.new.left.items sides.new.right.items indexes.new) }
    ensures gives { GaveSome T.Outlet (λ q. at_zero q (things (pairs_with on.now.tree side x (against side sides.old.left.items sides.old.right.items)))) out.old out.new result }
{
    meet(sides, indexes, on, side, &x, out)?;
    push_last(indexes, sides, side, &x);
    sides.hold(side, x)
}
