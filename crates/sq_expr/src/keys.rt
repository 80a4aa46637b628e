//! What an expression says of columns by itself: that it is one of them, or that two are equal where it is true.

ghost use Rattle.std.specs.Prelude.{◌≡◌, ◌++◌, IfOk, OnOk};
ghost use Rattle.sq_expr.specs.Keys.{bare_of, equated, pair_of_fields};
ghost use Rattle.sq_expr.specs.TreeView.{tree_of};

use crate::{CompareOp, LogicOp, Tree, Typed};
use std::alloc::{AllocError, Global};

fn push_equated(tree: &Tree, pairs: &mut Vec<(usize, usize)>) -> Result<(), AllocError>
    ensures { OnOk result (pairs.new.items ≡ pairs.old.items ++ equated (tree_of tree.now)) }
{
    match tree {
        Tree::Compare(CompareOp::Equal, a, b) => push_fields(a, b, pairs),
        Tree::Logic(LogicOp::And, a, b) => {
            push_equated(a, pairs)?;
            push_equated(b, pairs)
        }
        _ => Ok(()),
    }
}

/// The pair of two bare fields; else none.
fn push_fields(a: &Tree, b: &Tree, pairs: &mut Vec<(usize, usize)>) -> Result<(), AllocError>
    ensures { OnOk result (pairs.new.items ≡ pairs.old.items ++ pair_of_fields (tree_of a.now) (tree_of b.now)) }
{
    match (a, b) {
        (Tree::Field(i), Tree::Field(j)) => {
            pairs.push((*i, *j))?;
            Ok(())
        }
        _ => Ok(()),
    }
}

/// The column whose bare field an expression is.
pub fn bare_field(e: &Typed) -> Option<usize>
    ensures { result ≡ bare_of e.now.tree }
{
    match &*e.root {
        Tree::Field(i) => Some(*i),
        _ => None,
    }
}

/// The pairs of columns without whose being equal a predicate isn't true.
pub fn equated_fields(alloc: Global, e: &Typed) -> Result<Vec<(usize, usize)>, AllocError>
    ensures { IfOk result (λ pairs. pairs.items ≡ equated e.now.tree) }
{
    let mut pairs = Vec::new(alloc);
    push_equated(&e.root, &mut pairs)?;
    Ok(pairs)
}
