//! Join on whole lists.

ghost use Rattle.std.specs.Prelude.{◌≡◌, ◌++◌, IfOk, OnOk};
ghost use Rattle.sq_lists.specs.Pairs.{join_list_of};
ghost use Rattle.sq_lists.specs.Sides.{against, pairs_with};
ghost use Rattle.sq_join.specs.Indexes.{HasPassing, IsIndex, MayIndex};

use crate::index::Index;
use crate::side_indexes::{Candidates, SideIndexes};
use crate::sides::{let_go, push_last};
use sq_expr::{Typed, copy_typed};
use sq_lists::{Sides, merge_two};
use sq_pairs::{Condition, push_pair, push_pairs};
use sq_value::Tuple;
use std::alloc::{AllocError, Global};
use std::collections::VecDeque;

/// Puts the pairs of a tuple with those of the other side that stand in a row of their index, in their order, behind the
/// others: with those that stand in no such row none passes.
fn push_pairs_in_row(
    on: &Condition,
    side: u32,
    x: &Tuple,
    others: &VecDeque<Tuple>,
    index: &Index,
    row: usize,
    out: &mut Vec<Tuple>,
) -> Result<(), AllocError>
    requires index { IsIndex others.now.items index.now }
    requires passing { HasPassing on.now.tree side x.now others.now.items index.now row }
    ensures { OnOk result (out.new.items ≡ out.old.items ++ pairs_with on.now.tree side x.now others.now.items) }
{
    let alloc = *others.allocator();
    let (first, positions) = (index.first, &index.rows[row]);
    for i in 0..positions.len() {
        let at = positions[i] - first;
        push_pair(alloc, on, side, x, &others[at], out)?;
    }
    Ok(())
}

/// Puts the pairs of a tuple that comes at a side, with what is held of the other side, behind the others.
fn push_met(
    sides: &Sides,
    indexes: &Option<SideIndexes>,
    on: &Condition,
    side: u32,
    x: &Tuple,
    out: &mut Vec<Tuple>,
) -> Result<(), AllocError>
    requires { MayIndex on.now.tree sides.now.left.items sides.now.right.items indexes.now }
    ensures { OnOk result (out.new.items ≡ out.old.items ++ pairs_with on.now.tree side x.now (against side sides.now.left.items sides.now.right.items)) }
{
    let others = sides.against(side);
    if let Some(indexes) = indexes {
        return match indexes.candidates(side, x) {
            Candidates::All => push_pairs(on, side, x, others, out),
            Candidates::InRow(row) => {
                push_pairs_in_row(on, side, x, others, indexes.against(side), row, out)
            }
            Candidates::Nobody => Ok(()),
        };
    }
    push_pairs(on, side, x, others, out)
}

/// What a Join with a condition gives of a left and a right list.
fn join_by(
    alloc: Global,
    size: u64,
    on: &Condition,
    left: &[Tuple],
    right: &[Tuple],
) -> Result<Vec<Tuple>, AllocError>
    ensures { IfOk result (λ out. out.items ≡ join_list_of size on.now.tree left.now right.now) }
{
    let mut indexes = SideIndexes::of(alloc, on);
    let mut coming = VecDeque::from(merge_two(alloc, left, right)?);
    let mut sides = Sides::new(alloc);
    let mut out = Vec::new(alloc);
    while let Some((side, x)) = coming.pop_front() {
        let_go(&mut sides, &mut indexes, size, x.time);
        push_met(&sides, &indexes, on, side, &x, &mut out)?;
        push_last(&mut indexes, &sides, side, &x);
        sides.hold(side, x)?;
    }
    Ok(out)
}

/// What a Join gives (after SQuAl's Join: Abadi and others, VLDB Journal 2003; the bound and the order of the pairs are
/// this project's own): for each tuple of the merge of the two streams, in order, its pairs with the earlier ones of the
/// other stream, in their order, whose times differ from its own by at most `size` ticks and of which `on` is true. Null
/// is not true. In `on` the left fields stand first, then the right ones, and `time` is the later time.
pub fn join_list(
    alloc: Global,
    size: u64,
    on: &Typed,
    left: &[Tuple],
    right: &[Tuple],
) -> Result<Vec<Tuple>, AllocError>
    ensures { IfOk result (λ out. out.items ≡ join_list_of size on.now.tree left.now right.now) }
{
    let copy = copy_typed(alloc, on)?;
    let condition = Condition::of(alloc, copy);
    join_by(alloc, size, &condition, left, right)
}
