// What a part has of what a box gives.
ghost use Rattle.std.specs.Prelude.{◌≡◌, ◌+◌, ◌++◌, ◌<◌, ◌≤◌, ◌^◌, [], if◌then◌else◌, length, map, IfOk, true};
ghost use Rattle.std.specs.List.{All};
ghost use Rattle.sq_net.specs.SoundNetworks.{body_within};
ghost use Rattle.sq_expr.specs.Keys.{bare_of};
ghost use Rattle.sq_shard.specs.Keys.{both_cut, box_cut, cut_at, is_among, join_cut, left_keys, own, places, resample_cut, right_keys, cut_through, union_cut};
ghost use Rattle.sq_shard.specs.declared.Cut.TheVariants.{By};
ghost use Rattle.sq_words.specs.Lists.{contains_number};

use crate::Cut;
use crate::columns::{bare_places, below, common, group_places, left_keys, right_keys, shifted};
use sq_expr::{Typed, equated_fields};
use sq_net::Body;
use sq_value::ListOf;
use std::alloc::{AllocError, Global};

pub(crate) fn by_columns(columns: Vec<u32>) -> Cut
    ensures { result ≡ By columns.items }
{
    Cut::By {
        columns: ListOf::new(columns),
    }
}

pub(crate) fn no_cut(alloc: Global) -> Cut
    ensures { result ≡ By [] }
{
    by_columns(Vec::new(alloc))
}

pub(crate) fn copy_cut(alloc: Global, cut: &Cut) -> Result<Cut, AllocError>
    ensures { IfOk result (λ c. c ≡ cut.now) }
{
    match cut {
        Cut::Whole => Ok(Cut::Whole),
        Cut::By { columns } => Ok(by_columns(Vec::from_slice(alloc, columns.as_slice())?)),
    }
}

// The cut with this number, or one by no column where there is none.
pub(crate) fn cut_at(alloc: Global, cuts: &[Cut], number: usize) -> Result<Cut, AllocError>
    ensures { IfOk result (λ c. c ≡ cut_at cuts.now number) }
{
    match cuts.get(number) {
        Some(cut) => copy_cut(alloc, cut),
        None => Ok(no_cut(alloc)),
    }
}

fn both_cut(alloc: Global, a: &Cut, b: &Cut) -> Result<Cut, AllocError>
    ensures { IfOk result (λ c. c ≡ both_cut a.now b.now) }
{
    match (a, b) {
        (Cut::Whole, Cut::Whole) => Ok(Cut::Whole),
        (Cut::By { columns }, Cut::By { columns: others }) => {
            Ok(by_columns(common(alloc, columns.as_slice(), others.as_slice())?))
        }
        _ => Ok(no_cut(alloc)),
    }
}

fn union_cut(alloc: Global, cuts: &[Cut]) -> Result<Cut, AllocError>
    ensures { IfOk result (λ c. c ≡ union_cut cuts.now) }
{
    let mut place = cuts.len();
    if place == 0 {
        return Ok(no_cut(alloc));
    }
    place -= 1;
    let mut all = copy_cut(alloc, &cuts[place])?;
    while place > 0 {
        place -= 1;
        all = both_cut(alloc, &cuts[place], &all)?;
    }
    Ok(all)
}

fn map_cut(alloc: Global, exprs: &[Typed], first: &Cut) -> Result<Cut, AllocError>
    requires { length exprs.now < 2 ^ 32 }
    ensures { IfOk result (λ c. c ≡ cut_through (λ columns. places (λ e. is_among columns (bare_of e.tree)) 0 exprs.now) first.now) }
{
    match first {
        Cut::Whole => Ok(Cut::Whole),
        Cut::By { columns } => Ok(by_columns(bare_places(alloc, columns.as_slice(), exprs)?)),
    }
}

fn sorted_cut(alloc: Global, on_time: bool, first: Cut) -> Cut
    ensures { result ≡ cut_through (λ columns. if on_time then columns else []) first }
{
    match first {
        Cut::Whole => Cut::Whole,
        Cut::By { columns } => {
            if on_time {
                Cut::By { columns }
            } else {
                no_cut(alloc)
            }
        }
    }
}

// The same cut without the columns from a width on.
fn own_cut(alloc: Global, width: u32, cut: &Cut) -> Result<Cut, AllocError>
    ensures { IfOk result (λ c. c ≡ own width cut.now) }
{
    match cut {
        Cut::Whole => Ok(Cut::Whole),
        Cut::By { columns } => Ok(by_columns(below(alloc, columns.as_slice(), width)?)),
    }
}

fn grouped_cut(alloc: Global, group: &[u32], first: &Cut) -> Result<Cut, AllocError>
    requires { length group.now < 2 ^ 32 }
    ensures { IfOk result (λ c. c ≡ cut_through (λ columns. places (contains_number columns) 0 group.now) first.now) }
{
    match first {
        Cut::Whole => Ok(Cut::Whole),
        Cut::By { columns } => Ok(by_columns(group_places(alloc, columns.as_slice(), group)?)),
    }
}

// The key columns of a pair where both sides are cut: those of the left side, then those of the right one.
fn pair_columns(
    alloc: Global,
    width: u32,
    pairs: &[(usize, usize)],
    lefts: &[u32],
    rights: &[u32],
) -> Result<Vec<u32>, AllocError>
    requires width { width < 2 ^ 16 }
    requires low { All (λ c. c < 2 ^ 16) rights.now }
    ensures { IfOk result (λ v. v.items ≡ left_keys width pairs.now lefts.now rights.now ++ map (λ r. width + r) (right_keys width pairs.now lefts.now rights.now)) }
{
    let mut all = left_keys(alloc, width, pairs, lefts, rights)?;
    let keys = right_keys(alloc, width, pairs, lefts, rights)?;
    let moved = shifted(alloc, &keys, width)?;
    all.extend_from_slice(&moved)?;
    Ok(all)
}

fn join_cut(
    alloc: Global,
    widths: (u32, u32),
    pairs: &[(usize, usize)],
    left: &Cut,
    right: &Cut,
) -> Result<Cut, AllocError>
    requires left { widths.0 ≤ 16 }
    requires right { widths.1 ≤ 16 }
    ensures { IfOk result (λ c. c ≡ join_cut widths.0 pairs.now left.now (own widths.1 right.now)) }
{
    match (left, right) {
        (Cut::Whole, Cut::Whole) => Ok(Cut::Whole),
        (Cut::By { columns }, Cut::Whole) => {
            Ok(by_columns(below(alloc, columns.as_slice(), widths.0)?))
        }
        (Cut::Whole, Cut::By { columns }) => {
            let rights = below(alloc, columns.as_slice(), widths.1)?;
            Ok(by_columns(shifted(alloc, &rights, widths.0)?))
        }
        (Cut::By { columns }, Cut::By { columns: others }) => {
            let rights = below(alloc, others.as_slice(), widths.1)?;
            Ok(by_columns(pair_columns(alloc, widths.0, pairs, columns.as_slice(), &rights)?))
        }
    }
}

fn resample_cut(alloc: Global, width: u32, left: &Cut, right: &Cut) -> Result<Cut, AllocError>
    ensures { IfOk result (λ c. c ≡ resample_cut width left.now right.now) }
{
    match right {
        Cut::Whole => own_cut(alloc, width, left),
        Cut::By { .. } => Ok(no_cut(alloc)),
    }
}

// What a part has of what a box gives, where these are the widths and the cuts of its inputs.
pub(crate) fn box_cut(
    alloc: Global,
    on_time: bool,
    body: &Body,
    widths: (u32, u32),
    cuts: &[Cut],
) -> Result<Cut, AllocError>
    requires within { body_within body.now ≡ true }
    requires left { widths.0 ≤ 16 }
    requires right { widths.1 ≤ 16 }
    ensures { IfOk result (λ c. c ≡ box_cut on_time body.now widths cuts.now) }
{
    let first = cut_at(alloc, cuts, 0)?;
    match body {
        Body::Filter { .. } => Ok(first),
        Body::Map { exprs } => map_cut(alloc, exprs.as_slice(), &first),
        Body::Union => union_cut(alloc, cuts),
        Body::BSort { .. } => Ok(sorted_cut(alloc, on_time, first)),
        Body::Aggregate { group, .. } => grouped_cut(alloc, group.as_slice(), &first),
        Body::Join { on, .. } => {
            let pairs = equated_fields(alloc, on)?;
            let second = cut_at(alloc, cuts, 1)?;
            join_cut(alloc, widths, &pairs, &first, &second)
        }
        Body::Resample { .. } => {
            let second = cut_at(alloc, cuts, 1)?;
            resample_cut(alloc, widths.0, &first, &second)
        }
    }
}
