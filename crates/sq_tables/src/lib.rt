//! A network file by its tables: a TOML document of sources, boxes and outputs, before its names and numbers are checked.
//!
//! The contract of `network_table_of` promises the tables that the file says, with a selectivity for each port of each box, where the
//! file is a document of version 1 or 2 whose tables have their shape, and else the first broken rule with its first place; want of
//! memory aside. Below stand the refusals of the typed network, and `toml`.
#![tactic(auto)]

ghost use Rattle.std.specs.Prelude.{◌≡◌, IfOk};
ghost use Rattle.toml.specs.View.{table_view};
ghost use Rattle.sq_tables.specs.Tables.{version_numbered, version_in, network_table_from, network_table_of};
ghost use Rattle.sq_tables.specs.Refusals.{IsAnswerOf};
ghost use Rattle.sq_tables.specs.Shapes.{AreEven};

mod answer_columns;
mod document;
mod graphs;
mod reading;
mod shape;
mod tables;

use document::{Table, value_at};
pub use shape::port_count;
use sq_net::NetErr;
use std::alloc::Global;
pub use tables::{
    Answer, AnswerColumn, BodyTable, BoxTable, NetworkTable, OutputTable, Over, Setting,
    SourceTable, Version,
};

fn version_numbered(number: i64) -> Option<Version>
    ensures { result ≡ version_numbered number }
{
    if number == 1 {
        Some(Version::One)
    } else if number == 2 {
        Some(Version::Two)
    } else {
        None
    }
}

fn version_in(table: &Table) -> Option<Version>
    ensures { result ≡ version_in (table_view table.now) }
{
    let Some(version) = value_at(table, "version") else {
        return None;
    };
    match version.as_integer() {
        Some(number) => version_numbered(number),
        None => None,
    }
}

fn network_table_from(alloc: Global, table: &Table) -> Result<NetworkTable, NetErr>
    ensures { IsAnswerOf result (network_table_from (table_view table.now)) }
{
    match version_in(table) {
        Some(version) => reading::network_table_in(alloc, version, table),
        None => Err(NetErr::Version),
    }
}

/// The tables that a file's bytes say, or the first rule that they break, with its first place.
pub fn network_table_of(alloc: Global, bytes: &[u8]) -> Result<NetworkTable, NetErr>
    ensures answer { IsAnswerOf result (network_table_of bytes.now) }
    ensures even { IfOk result AreEven }
{
    let table = document::document_in(alloc, bytes)?;
    network_table_from(alloc, &table)
}
