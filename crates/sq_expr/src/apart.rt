//! What a predicate says of the two tuples of a pair apart, and of a field and a constant.

ghost use Rattle.std.specs.Prelude.{◌≡◌, IfOk, IfSome, OnOk};
ghost use Rattle.sq_expr.specs.Apart.{number_for, reads_within, without_first, Equals, Fixes, Implies, PartsAgree};
ghost use Rattle.sq_expr.specs.Expressions.{value_of};
ghost use Rattle.sq_expr.specs.Trees.{Expr, Compare};
ghost use Rattle.sq_expr.specs.declared.CompareOp.TheVariants as comparison;
ghost use Rattle.sq_expr.specs.TreeView.{tree_of};

use crate::copies::copy_tree;
use crate::evaluation::number_for;
use crate::{CompareOp, LogicOp, Tree, Typed};
use sq_value::{Tuple, Value, copy_value};
use std::alloc::{AllocError, Global};
use std::marker::Model;

/// An expression that is worked out in one of the two tuples of a pair. Contracts see its tree.
pub struct SideExpression {
    root: Box<Tree>,
}

/// By hand, as that of a checked expression.
impl Drop for SideExpression {
    fn drop(self) {
        let SideExpression { root: _root } = self;
    }
}

impl Model for SideExpression {
    ghost use Rattle.sq_expr.specs.Trees.{Expr as TreeExpr, expr_code};
    ghost use Rattle.sq_expr.specs.TreeView.{tree_of as seen};

    ghost Value = { TreeExpr };

    ghost coded = { expr_code };

    ghost view = { λ a. seen a.root.value };
}

impl SideExpression {
    /// A number that stands for its value in a tuple, the same for equal values. There is none for Null.
    pub fn number(&self, t: &Tuple) -> Option<i64>
        ensures { result ≡ number_for (value_of self.now t.now) }
    {
        number_for(&self.root, t)
    }
}

/// Expressions over the fields of left tuples and as many over those of right ones.
#[derive(Drop)]
pub struct EqualParts {
    pub left: Vec<SideExpression>,
    pub right: Vec<SideExpression>,
}

/// Whether all fields that an expression reads stand from one place on and before another; the time isn't read.
fn reads_within(tree: &Tree, from: usize, to: usize) -> bool
    ensures { result ≡ reads_within from to (tree_of tree.now) }
{
    match tree {
        Tree::Literal(_) => true,
        Tree::Time => false,
        Tree::Field(i) => from <= *i && *i < to,
        Tree::Unary(_, a) => reads_within(a, from, to),
        Tree::Arithmetic(_, a, b) | Tree::Compare(_, a, b) | Tree::Logic(_, a, b) => {
            reads_within(a, from, to) && reads_within(b, from, to)
        }
    }
}

/// The same expression, where so many fields in front aren't there.
fn without_first(alloc: Global, tree: &Tree, count: usize) -> Result<Box<Tree>, AllocError>
    ensures { IfOk result (λ copy. tree_of copy.value ≡ without_first count (tree_of tree.now)) }
{
    let copy = match tree {
        Tree::Literal(v) => Tree::Literal(copy_value(v)?),
        Tree::Time => Tree::Time,
        Tree::Field(i) => Tree::Field(i.saturating_sub(count)),
        Tree::Unary(op, a) => Tree::Unary(*op, without_first(alloc, a, count)?),
        Tree::Arithmetic(op, a, b) => {
            let a = without_first(alloc, a, count)?;
            Tree::Arithmetic(*op, a, without_first(alloc, b, count)?)
        }
        Tree::Compare(op, a, b) => {
            let a = without_first(alloc, a, count)?;
            Tree::Compare(*op, a, without_first(alloc, b, count)?)
        }
        Tree::Logic(op, a, b) => {
            let a = without_first(alloc, a, count)?;
            Tree::Logic(*op, a, without_first(alloc, b, count)?)
        }
    };
    Ok(Box::new(alloc, copy)?)
}

/// Takes in two sides of an equality, if the one reads left fields alone and the other right ones.
fn push_sides(
    alloc: Global,
    left: &Tree,
    right: &Tree,
    width: usize,
    parts: &mut EqualParts,
) -> Result<(), AllocError>
    ensures { OnOk result ((on : Expr) → Equals on (tree_of left.now) (tree_of right.now)
        → PartsAgree on width parts.old.left.items parts.old.right.items → PartsAgree on width parts.new.left.items parts.new.right.items) }
{
    if reads_within(left, 0, width) && reads_within(right, width, usize::MAX) {
        let root = copy_tree(alloc, left)?;
        parts.left.push(SideExpression { root })?;
        let root = without_first(alloc, right, width)?;
        parts.right.push(SideExpression { root })?;
    }
    Ok(())
}

/// Takes in an equality, unless it is of two bare fields or of a constant.
#[tactic(auto, using(crate::proofs::ApartLemmas::equality_lemmas))]
fn push_equal(
    alloc: Global,
    a: &Tree,
    b: &Tree,
    width: usize,
    parts: &mut EqualParts,
) -> Result<(), AllocError>
    ensures { OnOk result ((on : Expr) → Implies on (Compare comparison.Equal (tree_of a.now) (tree_of b.now))
        → PartsAgree on width parts.old.left.items parts.old.right.items → PartsAgree on width parts.new.left.items parts.new.right.items) }
{
    match (a, b) {
        (Tree::Field(_), Tree::Field(_)) | (Tree::Literal(_), _) | (_, Tree::Literal(_)) => Ok(()),
        _ => {
            push_sides(alloc, a, b, width, parts)?;
            push_sides(alloc, b, a, width, parts)?;
            Ok(())
        }
    }
}

/// Takes in the equalities of a predicate, which it is or has beside other conditions.
fn push_parts(
    alloc: Global,
    tree: &Tree,
    width: usize,
    parts: &mut EqualParts,
) -> Result<(), AllocError>
    ensures { OnOk result ((on : Expr) → Implies on (tree_of tree.now)
        → PartsAgree on width parts.old.left.items parts.old.right.items → PartsAgree on width parts.new.left.items parts.new.right.items) }
{
    match tree {
        Tree::Compare(CompareOp::Equal, a, b) => push_equal(alloc, a, b, width, parts),
        Tree::Logic(LogicOp::And, a, b) => {
            push_parts(alloc, a, width, parts)?;
            push_parts(alloc, b, width, parts)
        }
        _ => Ok(()),
    }
}

/// What a predicate asks to be equal of the left and the right tuple of a pair, beside bare fields: the sides of each
/// equality of which one reads left fields alone and the other right ones. A left tuple has as many fields as `width`.
pub fn equal_parts(alloc: Global, on: &Typed, width: usize) -> Result<EqualParts, AllocError>
    ensures { IfOk result (λ parts. PartsAgree on.now.tree width parts.left.items parts.right.items) }
{
    let mut parts = EqualParts {
        left: Vec::new(alloc),
        right: Vec::new(alloc),
    };
    push_parts(alloc, &on.root, width, &mut parts)?;
    Ok(parts)
}

/// The field and the constant of an equality of such.
#[tactic(auto, using(crate::proofs::ApartLemmas::equality_lemmas))]
fn fixed_by<'a>(a: &'a Tree, b: &'a Tree) -> Option<(usize, &'a Value)>
    ensures { IfSome result (λ found. Fixes (Compare comparison.Equal (tree_of a.now) (tree_of b.now)) found.0 found.1.now) }
{
    match (a, b) {
        (Tree::Field(i), Tree::Literal(v)) | (Tree::Literal(v), Tree::Field(i)) => Some((*i, v)),
        _ => None,
    }
}

#[tactic(auto, using(crate::proofs::ApartLemmas::equality_lemmas))]
fn fixed_in<'a>(tree: &'a Tree) -> Option<(usize, &'a Value)>
    ensures { IfSome result (λ found. Fixes (tree_of tree.now) found.0 found.1.now) }
{
    match tree {
        Tree::Compare(CompareOp::Equal, a, b) => fixed_by(a, b),
        Tree::Logic(LogicOp::And, a, b) => match fixed_in(a) {
            Some(found) => Some(found),
            None => fixed_in(b),
        },
        _ => None,
    }
}

/// A field that has a constant value wherever a predicate is true, and that value.
pub fn fixed_field<'a>(e: &'a Typed) -> Option<(usize, &'a Value)>
    ensures { IfSome result (λ found. Fixes e.now.tree found.0 found.1.now) }
{
    fixed_in(&e.root)
}
