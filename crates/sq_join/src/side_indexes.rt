//! An index for each side of a Join whose predicate equates left with right fields.

ghost use Rattle.std.specs.Prelude.{◌≡◌, List, [], IfSome};
ghost use Rattle.sq_value.specs.declared.Tuple.{Tuple as T};
ghost use Rattle.sq_expr.specs.Trees.{Expr};
ghost use Rattle.sq_lists.specs.Sides.{against, left_with, recent, right_with};
ghost use Rattle.sq_join.specs.Indexes.{index_against, index_of, AreIndexes, AreOf, AreCandidates, IsIndex, IsOfSameKeys};

use crate::index::Index;
use crate::keys::{Keys, keys_of};
use sq_expr::EqualParts;
use sq_lists::{Sides, begins_past};
use sq_pairs::Condition;
use sq_value::Tuple;
use std::alloc::Global;
use std::collections::VecDeque;

/// An index of each side, by the places that the predicate equates.
pub(crate) struct SideIndexes {
    left: Index,
    right: Index,
}

/// Those with which a tuple may pass.
pub(crate) enum Candidates {
    All,
    InRow(usize),
    Nobody,
}

/// By hand, so that a proof above meets one call where indexes are let go.
impl Drop for SideIndexes {
    fn drop(self) {
        let SideIndexes {
            left: _left,
            right: _right,
        } = self;
    }
}

/// Lets go of the first tuples, as long as they are more than `size` ticks before a time.
#[inline(always)]
fn let_go(held: &mut VecDeque<Tuple>, index: &mut Index, size: u64, now: u64)
    requires { IsIndex held.old.items index.old }
    ensures held { held.new.items ≡ recent size now held.old.items }
    ensures index { IsIndex held.new.items index.new }
    ensures same { IsOfSameKeys index.old index.new }
{
    while begins_past(held, size, now) {
        if let Some(x) = held.pop_front() {
            index.drop_first(&x);
        }
    }
}

impl SideIndexes {
    /// The indexes of a Join that holds nothing, where its predicate equates left with right fields.
    pub(crate) fn of(alloc: Global, on: &Condition) -> Option<SideIndexes>
        ensures { IfSome result (AreIndexes on.now.tree [] []) }
    {
        let Keys { width, left, right } = keys_of(alloc, on).ok()?;
        let (_left, all) = on.widths();
        let parts = on.equal_parts(alloc, width).ok()?;
        if (left.is_empty() && parts.left.is_empty()) || all < width {
            return None;
        }
        let EqualParts {
            left: left_parts,
            right: right_parts,
        } = parts;
        Some(SideIndexes {
            left: Index::new(alloc, left, left_parts, width),
            right: Index::new(alloc, right, right_parts, all - width),
        })
    }

    /// The index of a side.
    #[inline(always)]
    fn of_side(&self, side: u32) -> &Index
        ensures { result.now ≡ index_of side self.now }
    {
        if side == 0 { &self.left } else { &self.right }
    }

    /// The index of the other side.
    #[inline(always)]
    pub(crate) fn against(&self, side: u32) -> &Index
        ensures { result.now ≡ index_against side self.now }
    {
        if side == 0 { &self.right } else { &self.left }
    }

    /// Those against a side with which a tuple that comes there may pass.
    #[inline(always)]
    pub(crate) fn candidates(&self, side: u32, x: &Tuple) -> Candidates
        ensures { (on : Expr) (left right : List T) → AreIndexes on left right self.now
            → AreCandidates on side x.now (against side left right) (index_against side self.now) result }
    {
        let own = self.of_side(side);
        let other = self.against(side);
        if !own.is_even(x) {
            return Candidates::All;
        }
        match own.code_in(x) {
            Some(code) => match other.row_of(code) {
                Some(row) => Candidates::InRow(row),
                None => Candidates::All,
            },
            None => {
                if other.rows.is_empty() {
                    Candidates::All
                } else {
                    Candidates::Nobody
                }
            }
        }
    }

    /// Lets go of the first tuples of each side, as long as they are more than `size` ticks before a time.
    #[inline(always)]
    pub(crate) fn let_go(&mut self, sides: &mut Sides, size: u64, now: u64)
        requires { AreOf sides.old.left.items sides.old.right.items self.old }
        ensures left { sides.new.left.items ≡ recent size now sides.old.left.items }
        ensures right { sides.new.right.items ≡ recent size now sides.old.right.items }
        ensures indexes { (on : Expr) → AreIndexes on sides.old.left.items sides.old.right.items self.old → AreIndexes on sides.new.left.items sides.new.right.items self.new }
    {
        let_go(&mut sides.left, &mut self.left, size, now);
        let_go(&mut sides.right, &mut self.right, size, now);
    }

    /// Takes in a tuple that comes at a side.
    #[inline(always)]
    pub(crate) fn push_last(&mut self, sides: &Sides, side: u32, x: &Tuple)
        requires { AreOf sides.now.left.items sides.now.right.items self.old }
        ensures { (on : Expr) → AreIndexes on sides.now.left.items sides.now.right.items self.old
            → AreIndexes on (left_with side x.now sides.now.left.items) (right_with side x.now sides.now.right.items) self.new }
    {
        if side == 0 {
            self.left.push_last(&sides.left, x);
        } else {
            self.right.push_last(&sides.right, x);
        }
    }
}
