// The tables of a network file, by the keys that each kind of table has.
ghost use Rattle.std.specs.Prelude.{◌≡◌, ◌==◌, ◌∷◌, IfOk, IfErr, codes, length};
ghost use Rattle.std.specs.Option.{option_and_then};
ghost use Rattle.toml.specs.Data.{get_member, as_str, as_integer};
ghost use Rattle.sq_tables.specs.Documents.{has_only, list_in, optional, required, when};
ghost use Rattle.toml.specs.View.{table_view};
ghost use Rattle.sq_tables.specs.Readings.{IsUnreadTable, Reads};
ghost use Rattle.sq_tables.specs.Shapes.{aggregate_in, aggregate_keys, body_in, box_in, bsort_in, default_selectivity, filter_in, join_in, map_in, output_in, port_count, resample_in, source_in, top_in, union_in, window_keys};
ghost use Rattle.sq_tables.specs.ShapeViews.{tables_seen};

use crate::answer_columns::answer_columns_at;
use crate::document::{
    Table, TableErr, any_tables_at, any_texts_at, has_only, number_at, number_or, selectivity_at,
    settings_at, tables_at, text_at, texts_at,
};
use crate::graphs::graph_at;
use crate::tables::{BodyTable, BoxTable, OutputTable, SourceTable, Version};
use sq_value::{ListOf, same_text};
use std::alloc::Global;

/// The top of a file: its numbers, and its tables.
#[derive(Drop)]
pub(crate) struct TopTables<'a> {
    pub(crate) epoch: i64,
    pub(crate) batch: i64,
    pub(crate) sources: Vec<&'a Table>,
    pub(crate) boxes: Vec<&'a Table>,
    pub(crate) outputs: Vec<&'a Table>,
}

pub(crate) fn top_in<'a>(alloc: Global, table: &'a Table) -> Result<TopTables<'a>, TableErr>
    ensures ok { IfOk result (λ t. top_in (table_view table.now) ≡ Some (tables_seen t)) }
    ensures err { IfErr result (λ e. IsUnreadTable e (top_in (table_view table.now))) }
{
    if !has_only(
        table,
        &["version", "epoch", "batch", "source", "box", "output"],
    ) {
        return Err(TableErr::Shape);
    }
    let epoch = number_or(table, "epoch", 1000)?;
    let batch = number_or(table, "batch", 1)?;
    let sources = tables_at(alloc, table, "source")?;
    let boxes = any_tables_at(alloc, table, "box")?;
    let outputs = tables_at(alloc, table, "output")?;
    Ok(TopTables {
        epoch,
        batch,
        sources,
        boxes,
        outputs,
    })
}

pub(crate) fn source_in(alloc: Global, table: &Table) -> Result<SourceTable, TableErr>
    ensures { Reads result (source_in (table_view table.now)) }
{
    if !has_only(table, &["name", "file", "fields"]) {
        return Err(TableErr::Shape);
    }
    let name = text_at(alloc, table, "name")?;
    let file = text_at(alloc, table, "file")?;
    let fields = texts_at(alloc, table, "fields")?;
    Ok(SourceTable { name, file, fields })
}

pub(crate) fn output_in(alloc: Global, table: &Table) -> Result<OutputTable, TableErr>
    ensures { Reads result (output_in (table_view table.now)) }
{
    if !has_only(table, &["name", "from", "weight", "graph"]) {
        return Err(TableErr::Shape);
    }
    let name = text_at(alloc, table, "name")?;
    let from = text_at(alloc, table, "from")?;
    let weight = number_or(table, "weight", 1)?;
    let graph = graph_at(alloc, table)?;
    Ok(OutputTable {
        name,
        from,
        weight,
        graph,
    })
}

fn filter_in(alloc: Global, table: &Table) -> Result<BodyTable, TableErr>
    ensures { Reads result (filter_in (table_view table.now)) }
{
    if !has_only(
        table,
        &["where", "name", "kind", "in", "cost", "selectivity"],
    ) {
        return Err(TableErr::Shape);
    }
    let preds = texts_at(alloc, table, "where")?;
    Ok(BodyTable::Filter { preds })
}

fn map_in(alloc: Global, table: &Table) -> Result<BodyTable, TableErr>
    ensures { Reads result (map_in (table_view table.now)) }
{
    if !has_only(table, &["set", "name", "kind", "in", "cost", "selectivity"]) {
        return Err(TableErr::Shape);
    }
    let set = settings_at(alloc, table, "set")?;
    Ok(BodyTable::Map { set })
}

fn union_in(table: &Table) -> Result<BodyTable, TableErr>
    ensures { Reads result (union_in (table_view table.now)) }
{
    if !has_only(table, &["name", "kind", "in", "cost", "selectivity"]) {
        return Err(TableErr::Shape);
    }
    Ok(BodyTable::Union)
}

fn bsort_in(alloc: Global, table: &Table) -> Result<BodyTable, TableErr>
    ensures { Reads result (bsort_in (table_view table.now)) }
{
    if !has_only(
        table,
        &["by", "slack", "name", "kind", "in", "cost", "selectivity"],
    ) {
        return Err(TableErr::Shape);
    }
    let by = text_at(alloc, table, "by")?;
    let slack = number_at(table, "slack")?;
    Ok(BodyTable::BSort { by, slack })
}

fn has_window_keys(table: &Table) -> bool
    ensures { result ≡ has_only window_keys (table_view table.now) }
{
    has_only(
        table,
        &[
            "size",
            "advance",
            "group",
            "give",
            "name",
            "kind",
            "in",
            "cost",
            "selectivity",
        ],
    )
}

fn has_phase_keys(table: &Table) -> bool
    ensures { result ≡ has_only (codes "phase" ∷ window_keys) (table_view table.now) }
{
    has_only(
        table,
        &[
            "phase",
            "size",
            "advance",
            "group",
            "give",
            "name",
            "kind",
            "in",
            "cost",
            "selectivity",
        ],
    )
}

fn has_aggregate_keys(version: Version, table: &Table) -> bool
    ensures { result ≡ has_only (aggregate_keys version) (table_view table.now) }
{
    match version {
        Version::One => has_window_keys(table),
        Version::Two => has_phase_keys(table),
    }
}

fn aggregate_in(alloc: Global, version: Version, table: &Table) -> Result<BodyTable, TableErr>
    ensures { Reads result (aggregate_in version (table_view table.now)) }
{
    if !has_aggregate_keys(version, table) {
        return Err(TableErr::Shape);
    }
    let size = number_at(table, "size")?;
    let advance = number_at(table, "advance")?;
    let phase = number_or(table, "phase", 0)?;
    let group = any_texts_at(alloc, table, "group")?;
    let give = answer_columns_at(alloc, table)?;
    Ok(BodyTable::Aggregate {
        size,
        advance,
        phase,
        group,
        give,
    })
}

fn join_in(alloc: Global, table: &Table) -> Result<BodyTable, TableErr>
    ensures { Reads result (join_in (table_view table.now)) }
{
    if !has_only(
        table,
        &["size", "on", "name", "kind", "in", "cost", "selectivity"],
    ) {
        return Err(TableErr::Shape);
    }
    let size = number_at(table, "size")?;
    let on = text_at(alloc, table, "on")?;
    Ok(BodyTable::Join { size, on })
}

fn resample_in(alloc: Global, table: &Table) -> Result<BodyTable, TableErr>
    ensures { Reads result (resample_in (table_view table.now)) }
{
    if !has_only(
        table,
        &["size", "give", "name", "kind", "in", "cost", "selectivity"],
    ) {
        return Err(TableErr::Shape);
    }
    let size = number_at(table, "size")?;
    let give = answer_columns_at(alloc, table)?;
    Ok(BodyTable::Resample { size, give })
}

fn body_in(
    alloc: Global,
    version: Version,
    table: &Table,
    kind: &str,
) -> Result<BodyTable, TableErr>
    ensures { Reads result (body_in version kind.now (table_view table.now)) }
{
    if same_text(kind, "filter") {
        return filter_in(alloc, table);
    }
    if same_text(kind, "map") {
        return map_in(alloc, table);
    }
    if same_text(kind, "union") {
        return union_in(table);
    }
    if same_text(kind, "bsort") {
        return bsort_in(alloc, table);
    }
    if same_text(kind, "aggregate") {
        return aggregate_in(alloc, version, table);
    }
    if same_text(kind, "join") {
        return join_in(alloc, table);
    }
    if same_text(kind, "resample") {
        return resample_in(alloc, table);
    }
    Err(TableErr::Shape)
}

/// How many ports a box has.
pub fn port_count(body: &BodyTable) -> usize
    ensures { result ≡ port_count body.now }
{
    match body {
        BodyTable::Filter { preds } => preds.as_slice().len() + 1,
        BodyTable::Map { .. }
        | BodyTable::Union
        | BodyTable::BSort { .. }
        | BodyTable::Aggregate { .. }
        | BodyTable::Join { .. }
        | BodyTable::Resample { .. } => 1,
    }
}

// What a box does, by the kind that its table names.
fn body_at(alloc: Global, version: Version, table: &Table) -> Result<BodyTable, TableErr>
    ensures { Reads result (option_and_then (λ kind. body_in version kind (table_view table.now)) (required as_str (get_member (codes "kind") (table_view table.now)))) }
{
    let kind = text_at(alloc, table, "kind")?;
    body_in(alloc, version, table, kind.as_str())
}

// The selectivity of each port, one for each.
fn even_at(alloc: Global, table: &Table, ports: usize) -> Result<ListOf<i64>, TableErr>
    ensures { Reads result (option_and_then (λ selectivity. when (length selectivity == ports) selectivity) (optional (default_selectivity ports) (list_in as_integer) (get_member (codes "selectivity") (table_view table.now)))) }
{
    let selectivity = selectivity_at(alloc, table, ports)?;
    if selectivity.as_slice().len() != ports {
        return Err(TableErr::Shape);
    }
    Ok(selectivity)
}

pub(crate) fn box_in(alloc: Global, version: Version, table: &Table) -> Result<BoxTable, TableErr>
    ensures { Reads result (box_in version (table_view table.now)) }
{
    let body = body_at(alloc, version, table)?;
    let name = text_at(alloc, table, "name")?;
    let ins = texts_at(alloc, table, "in")?;
    let cost = number_or(table, "cost", 1)?;
    let selectivity = even_at(alloc, table, port_count(&body))?;
    Ok(BoxTable {
        name,
        body,
        ins,
        cost,
        selectivity,
    })
}
