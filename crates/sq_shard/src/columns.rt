// Lists of key columns.
ghost use Rattle.std.specs.Prelude.{◌≡◌, ◌+◌, ◌<◌, ◌^◌, ◌&&◌, length, map, nat_lt, IfOk};
ghost use Rattle.std.specs.List.{All, filter, list_any};
ghost use Rattle.sq_expr.specs.Keys.{bare_of};
ghost use Rattle.sq_shard.specs.Keys.{is_among, is_pair_of, joins_on, left_keys, places, right_keys};
ghost use Rattle.sq_words.specs.Lists.{contains_number};

use sq_expr::{Typed, bare_field};
use std::alloc::{AllocError, Global};

fn has_column(columns: &[u32], column: usize) -> bool
    ensures { result ≡ contains_number columns.now column }
{
    columns.iter().any(|c| *c as usize == column)
}

fn is_among(columns: &[u32], named: Option<usize>) -> bool
    ensures { result ≡ is_among columns.now named }
{
    match named {
        None => false,
        Some(column) => has_column(columns, column),
    }
}

// The numbers of the expressions that give a key as it is.
pub(crate) fn bare_places(
    alloc: Global,
    columns: &[u32],
    exprs: &[Typed],
) -> Result<Vec<u32>, AllocError>
    requires { length exprs.now < 2 ^ 32 }
    ensures { IfOk result (λ v. v.items ≡ places (λ e. is_among columns.now (bare_of e.tree)) 0 exprs.now) }
{
    let mut found = Vec::new(alloc);
    for (place, expr) in exprs.iter().enumerate() {
        if is_among(columns, bare_field(expr)) {
            found.push(place as u32)?;
        }
    }
    Ok(found)
}

// The numbers of the fields to group by that are keys.
pub(crate) fn group_places(
    alloc: Global,
    columns: &[u32],
    group: &[u32],
) -> Result<Vec<u32>, AllocError>
    requires { length group.now < 2 ^ 32 }
    ensures { IfOk result (λ v. v.items ≡ places (contains_number columns.now) 0 group.now) }
{
    let mut found = Vec::new(alloc);
    for (place, column) in group.iter().enumerate() {
        if columns.contains(column) {
            found.push(place as u32)?;
        }
    }
    Ok(found)
}

// Those that are among others too.
pub(crate) fn common(alloc: Global, columns: &[u32], others: &[u32]) -> Result<Vec<u32>, AllocError>
    ensures { IfOk result (λ v. v.items ≡ filter (contains_number others.now) columns.now) }
{
    let mut kept = Vec::new(alloc);
    for column in columns {
        if others.contains(column) {
            kept.push(*column)?;
        }
    }
    Ok(kept)
}

// Those below a width.
pub(crate) fn below(alloc: Global, columns: &[u32], width: u32) -> Result<Vec<u32>, AllocError>
    ensures { IfOk result (λ v. v.items ≡ filter (λ c. nat_lt c width) columns.now) }
{
    let mut kept = Vec::new(alloc);
    for column in columns {
        if *column < width {
            kept.push(*column)?;
        }
    }
    Ok(kept)
}

// Columns of the right side, as they are numbered in a pair.
pub(crate) fn shifted(alloc: Global, columns: &[u32], width: u32) -> Result<Vec<u32>, AllocError>
    requires width { width < 2 ^ 16 }
    requires low { All (λ c. c < 2 ^ 16) columns.now }
    ensures { IfOk result (λ v. v.items ≡ map (λ c. width + c) columns.now) }
{
    let mut all = Vec::new(alloc);
    for column in columns {
        all.push(width + *column)?;
    }
    Ok(all)
}

fn is_pair_of(a: u32, b: u32, pair: (usize, usize)) -> bool
    ensures { result ≡ is_pair_of a b pair }
{
    let (a, b) = (a as usize, b as usize);
    (pair.0 == a && pair.1 == b) || (pair.0 == b && pair.1 == a)
}

fn joins_on(a: u32, b: u32, pairs: &[(usize, usize)]) -> bool
    ensures { result ≡ joins_on a b pairs.now }
{
    pairs.iter().any(|pair| is_pair_of(a, b, *pair))
}

fn joins_some_right(left: u32, width: u32, pairs: &[(usize, usize)], rights: &[u32]) -> bool
    requires width { width < 2 ^ 16 }
    requires low { All (λ c. c < 2 ^ 16) rights.now }
    ensures { result ≡ list_any (λ r. joins_on left (width + r) pairs.now) rights.now }
{
    for right in rights {
        if joins_on(left, width + *right, pairs) {
            return true;
        }
    }
    false
}

fn joins_some_left(right: u32, width: u32, pairs: &[(usize, usize)], lefts: &[u32]) -> bool
    requires width { width < 2 ^ 16 }
    requires low { right < 2 ^ 16 }
    ensures { result ≡ list_any (λ l. nat_lt l width && joins_on l (width + right) pairs.now) lefts.now }
{
    for left in lefts {
        if *left < width && joins_on(*left, width + right, pairs) {
            return true;
        }
    }
    false
}

pub(crate) fn left_keys(
    alloc: Global,
    width: u32,
    pairs: &[(usize, usize)],
    lefts: &[u32],
    rights: &[u32],
) -> Result<Vec<u32>, AllocError>
    requires width { width < 2 ^ 16 }
    requires low { All (λ c. c < 2 ^ 16) rights.now }
    ensures { IfOk result (λ v. v.items ≡ left_keys width pairs.now lefts.now rights.now) }
{
    let mut kept = Vec::new(alloc);
    for left in lefts {
        if *left < width && joins_some_right(*left, width, pairs, rights) {
            kept.push(*left)?;
        }
    }
    Ok(kept)
}

pub(crate) fn right_keys(
    alloc: Global,
    width: u32,
    pairs: &[(usize, usize)],
    lefts: &[u32],
    rights: &[u32],
) -> Result<Vec<u32>, AllocError>
    requires width { width < 2 ^ 16 }
    requires low { All (λ c. c < 2 ^ 16) rights.now }
    ensures { IfOk result (λ v. v.items ≡ right_keys width pairs.now lefts.now rights.now) }
{
    let mut kept = Vec::new(alloc);
    for right in rights {
        if joins_some_left(*right, width, pairs, lefts) {
            kept.push(*right)?;
        }
    }
    Ok(kept)
}
