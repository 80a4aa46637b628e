// The whole of a document by its tables; the first table that is out of shape refuses it.
ghost use Rattle.std.specs.Prelude.{◌≡◌, ◌++◌, ◌∷◌, [], false, Ok, Err, IfOk, IfErr, OnOk, map};
ghost use Rattle.sq_net.specs.declared.NetErr.TheVariants as broken;
ghost use Rattle.sq_net.specs.declared.Part.TheVariants as part;
ghost use Rattle.toml.specs.View.{table_view};
ghost use Rattle.sq_tables.specs.declared.document.TableErr.TheVariants as unread;
ghost use Rattle.sq_tables.specs.Places.{part_place};
ghost use Rattle.sq_tables.specs.Tables.{network_table_in, shaped_from};
ghost use Rattle.sq_tables.specs.Refusals.{IsAnswerOf, is_memory};
ghost use Rattle.sq_tables.specs.Shapes.{box_in, output_in, source_in};

use crate::document::{Table, TableErr};
use crate::shape::{box_in, output_in, source_in, top_in};
use crate::tables::{BoxTable, NetworkTable, OutputTable, SourceTable, Version};
use sq_net::{NetErr, Part, Place};
use sq_value::ListOf;
use std::alloc::{AllocError, Global};

pub(crate) fn push<T: Drop>(list: &mut Vec<T>, item: T) -> Result<(), AllocError>
    ensures { OnOk result (list.new.items ≡ list.old.items ++ item ∷ []) }
{
    list.push(item)?;
    Ok(())
}

/// The place of a part, by its number; a number past 32 bits, which no file that fits in memory has, counts as want of
/// memory.
fn part_place(part: Part, number: usize) -> Result<Place, NetErr>
    ensures ok { IfOk result (λ p. p ≡ part_place part number) }
    ensures err { IfErr result (λ e. e ≡ broken.Memory) }
{
    match u32::try_from(number) {
        Ok(number) => Ok(Place {
            part,
            number,
            item: 0,
        }),
        Err(_) => Err(NetErr::Memory),
    }
}

fn unshaped(e: TableErr, part: Part, number: usize) -> NetErr
    ensures { is_memory result ≡ false → (e ≡ unread.Shape) × (result ≡ broken.Shape (part_place part number)) }
{
    match e {
        TableErr::Memory => NetErr::Memory,
        TableErr::Shape => match part_place(part, number) {
            Ok(place) => NetErr::Shape(place),
            Err(e) => e,
        },
    }
}

fn sources_in(alloc: Global, tables: &[&Table]) -> Result<Vec<SourceTable>, NetErr>
    ensures ok { IfOk result (λ v. shaped_from part.Source source_in 0 (map (λ t. table_view t.now) tables.now) ≡ Ok v.items) }
    ensures err { IfErr result (λ e. is_memory e ≡ false → shaped_from part.Source source_in 0 (map (λ t. table_view t.now) tables.now) ≡ Err e) }
{
    let mut found = Vec::new(alloc);
    for (number, table) in tables.iter().enumerate() {
        match source_in(alloc, table) {
            Ok(item) => push(&mut found, item)?,
            Err(e) => return Err(unshaped(e, Part::Source, number)),
        }
    }
    Ok(found)
}

fn boxes_in(alloc: Global, version: Version, tables: &[&Table]) -> Result<Vec<BoxTable>, NetErr>
    ensures ok { IfOk result (λ v. shaped_from part.Box (box_in version) 0 (map (λ t. table_view t.now) tables.now) ≡ Ok v.items) }
    ensures err { IfErr result (λ e. is_memory e ≡ false → shaped_from part.Box (box_in version) 0 (map (λ t. table_view t.now) tables.now) ≡ Err e) }
{
    let mut found = Vec::new(alloc);
    for (number, table) in tables.iter().enumerate() {
        match box_in(alloc, version, table) {
            Ok(item) => push(&mut found, item)?,
            Err(e) => return Err(unshaped(e, Part::Box, number)),
        }
    }
    Ok(found)
}

fn outputs_in(alloc: Global, tables: &[&Table]) -> Result<Vec<OutputTable>, NetErr>
    ensures ok { IfOk result (λ v. shaped_from part.Output output_in 0 (map (λ t. table_view t.now) tables.now) ≡ Ok v.items) }
    ensures err { IfErr result (λ e. is_memory e ≡ false → shaped_from part.Output output_in 0 (map (λ t. table_view t.now) tables.now) ≡ Err e) }
{
    let mut found = Vec::new(alloc);
    for (number, table) in tables.iter().enumerate() {
        match output_in(alloc, table) {
            Ok(item) => push(&mut found, item)?,
            Err(e) => return Err(unshaped(e, Part::Output, number)),
        }
    }
    Ok(found)
}

/// A document by its tables, or the first table that is out of shape.
pub(crate) fn network_table_in(
    alloc: Global,
    version: Version,
    table: &Table,
) -> Result<NetworkTable, NetErr>
    ensures { IsAnswerOf result (network_table_in version (table_view table.now)) }
{
    let top = match top_in(alloc, table) {
        Ok(top) => top,
        Err(e) => return Err(unshaped(e, Part::Top, 0)),
    };
    let sources = sources_in(alloc, &top.sources)?;
    let boxes = boxes_in(alloc, version, &top.boxes)?;
    let outputs = outputs_in(alloc, &top.outputs)?;
    Ok(NetworkTable {
        epoch: top.epoch,
        batch: top.batch,
        sources: ListOf::new(sources),
        boxes: ListOf::new(boxes),
        outputs: ListOf::new(outputs),
    })
}
