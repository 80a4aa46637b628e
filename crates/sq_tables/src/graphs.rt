// The points of an output's quality graph, by the entries of `graph`.
ghost use Rattle.std.specs.Prelude.{◌≡◌, IfOk, codes, option_map};
ghost use Rattle.toml.specs.Data.{get_member};
ghost use Rattle.toml.specs.View.{view, table_view, array_view};
ghost use Rattle.sq_tables.specs.Documents.{each_item, list_in, optional};
ghost use Rattle.sq_tables.specs.Readings.{Reads};
ghost use Rattle.sq_tables.specs.Shapes.{even_points, point_in};

use crate::document::{Array, Table, TableErr, Value, value_at};
use sq_value::ListOf;
use std::alloc::{AllocError, Global};

fn point_in(value: &Value) -> Option<(i64, i64)>
    ensures { result ≡ point_in (view value.now) }
{
    let items = value.as_array()?;
    if items.len() != 2 {
        return None;
    }
    Some((items[0].as_integer()?, items[1].as_integer()?))
}

fn points_among(alloc: Global, items: &Array) -> Result<Option<Vec<(i64, i64)>>, AllocError>
    ensures { IfOk result (λ o. option_map (λ v. v.items) o ≡ each_item point_in (array_view items.now)) }
{
    let mut found = Vec::new(alloc);
    for item in items {
        let Some(point) = point_in(item) else {
            return Ok(None);
        };
        found.push(point)?;
    }
    Ok(Some(found))
}

fn even_points(alloc: Global) -> Result<ListOf<(i64, i64)>, AllocError>
    ensures { IfOk result (λ v. v ≡ even_points) }
{
    Ok(ListOf::new(Vec::from_slice(alloc, &[(0, 0), (1000, 1_000_000)])?))
}

/// The points at the key `graph`, or those of the line from nothing to all where it isn't there.
pub(crate) fn graph_at(alloc: Global, table: &Table) -> Result<ListOf<(i64, i64)>, TableErr>
    ensures { Reads result (optional even_points (list_in point_in) (get_member (codes "graph") (table_view table.now))) }
{
    let Some(value) = value_at(table, "graph") else {
        return Ok(even_points(alloc)?);
    };
    let Some(items) = value.as_array() else {
        return Err(TableErr::Shape);
    };
    match points_among(alloc, items)? {
        Some(points) => Ok(ListOf::new(points)),
        None => Err(TableErr::Shape),
    }
}
