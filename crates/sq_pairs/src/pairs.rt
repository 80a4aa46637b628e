//! The pairs of a tuple, put into a list.

ghost use Rattle.std.specs.Prelude.{◌≡◌, ◌++◌, ◌∷◌, [], OnOk};
ghost use Rattle.sq_lists.specs.Sides.{pairs_with};

use crate::condition::Condition;
use sq_value::Tuple;
use std::alloc::{AllocError, Global};
use std::collections::VecDeque;

/// Puts the pair of a tuple with one of the other side behind the others, if it passes.
#[inline(always)]
pub fn push_pair(
    alloc: Global,
    on: &Condition,
    side: u32,
    x: &Tuple,
    other: &Tuple,
    out: &mut Vec<Tuple>,
) -> Result<(), AllocError>
    ensures { OnOk result (out.new.items ≡ out.old.items ++ pairs_with on.now.tree side x.now (other.now ∷ [])) }
{
    if let Some(pair) = on.passing_pair(alloc, side, x, other)? {
        out.push(pair)?;
    }
    Ok(())
}

/// Puts the pairs of a tuple with those of the other side, in their order, behind the others.
pub fn push_pairs(
    on: &Condition,
    side: u32,
    x: &Tuple,
    others: &VecDeque<Tuple>,
    out: &mut Vec<Tuple>,
) -> Result<(), AllocError>
    ensures { OnOk result (out.new.items ≡ out.old.items ++ pairs_with on.now.tree side x.now others.now.items) }
{
    let alloc = *others.allocator();
    for i in 0..others.len() {
        push_pair(alloc, on, side, x, &others[i], out)?;
    }
    Ok(())
}
