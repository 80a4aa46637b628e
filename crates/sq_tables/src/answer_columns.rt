// What an Aggregate or a Resample gives, by the entries of `give`.
ghost use Rattle.std.specs.Prelude.{◌≡◌, IfOk, codes, option_map};
ghost use Rattle.toml.specs.Data.{get_member};
ghost use Rattle.toml.specs.View.{view, table_view, array_view};
ghost use Rattle.sq_tables.specs.Documents.{each_item, list_in, required};
ghost use Rattle.sq_tables.specs.Readings.{Reads};
ghost use Rattle.sq_tables.specs.Shapes.{counting_in, function_in, answer_column_in, over_named};

use crate::document::{Array, Table, TableErr, Value, text_in, value_at};
use crate::tables::{Answer, AnswerColumn, Over};
use sq_value::{ListOf, same_text};
use std::alloc::{AllocError, Global};

fn over_named(word: &str) -> Option<Over>
    ensures { result ≡ over_named word.now }
{
    if same_text(word, "sum") {
        return Some(Over::Sum);
    }
    if same_text(word, "avg") {
        return Some(Over::Avg);
    }
    if same_text(word, "min") {
        return Some(Over::Min);
    }
    if same_text(word, "max") {
        return Some(Over::Max);
    }
    if same_text(word, "first") {
        return Some(Over::First);
    }
    if same_text(word, "last") {
        return Some(Over::Last);
    }
    None
}

fn counting_in(alloc: Global, name: &Value, word: &Value) -> Result<AnswerColumn, TableErr>
    ensures { Reads result (counting_in (view name.now) (view word.now)) }
{
    let name = text_in(alloc, name)?;
    let Some(word) = word.as_str() else {
        return Err(TableErr::Shape);
    };
    if !same_text(word, "count") {
        return Err(TableErr::Shape);
    }
    Ok(AnswerColumn {
        name,
        answer: Answer::Count,
    })
}

fn function_in(
    alloc: Global,
    name: &Value,
    word: &Value,
    field: &Value,
) -> Result<AnswerColumn, TableErr>
    ensures { Reads result (function_in (view name.now) (view word.now) (view field.now)) }
{
    let name = text_in(alloc, name)?;
    let Some(word) = word.as_str() else {
        return Err(TableErr::Shape);
    };
    let field = text_in(alloc, field)?;
    let Some(over) = over_named(word) else {
        return Err(TableErr::Shape);
    };
    Ok(AnswerColumn {
        name,
        answer: Answer::Field { over, field },
    })
}

fn answer_column_in(alloc: Global, value: &Value) -> Result<AnswerColumn, TableErr>
    ensures { Reads result (answer_column_in (view value.now)) }
{
    let Some(items) = value.as_array() else {
        return Err(TableErr::Shape);
    };
    if items.len() == 2 {
        return counting_in(alloc, &items[0], &items[1]);
    }
    if items.len() == 3 {
        return function_in(alloc, &items[0], &items[1], &items[2]);
    }
    Err(TableErr::Shape)
}

fn answer_columns_among(
    alloc: Global,
    items: &Array,
) -> Result<Option<Vec<AnswerColumn>>, AllocError>
    ensures { IfOk result (λ o. option_map (λ v. v.items) o ≡ each_item answer_column_in (array_view items.now)) }
{
    let mut found = Vec::new(alloc);
    for item in items {
        match answer_column_in(alloc, item) {
            Ok(column) => found.push(column)?,
            Err(TableErr::Shape) => return Ok(None),
            Err(TableErr::Memory) => return Err(AllocError),
        }
    }
    Ok(Some(found))
}

/// The list at the key `give`.
pub(crate) fn answer_columns_at(
    alloc: Global,
    table: &Table,
) -> Result<ListOf<AnswerColumn>, TableErr>
    ensures { Reads result (required (list_in answer_column_in) (get_member (codes "give") (table_view table.now))) }
{
    let Some(value) = value_at(table, "give") else {
        return Err(TableErr::Shape);
    };
    let Some(items) = value.as_array() else {
        return Err(TableErr::Shape);
    };
    match answer_columns_among(alloc, items)? {
        Some(columns) => Ok(ListOf::new(columns)),
        None => Err(TableErr::Shape),
    }
}
