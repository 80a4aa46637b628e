// The schemas of the sources.
ghost use Rattle.std.specs.Prelude.{◌≡◌, ◌<◌, ◌≤◌, ◌^◌, [], true, false, None, Ok, Err, IfOk, IfErr, length};
ghost use Rattle.std.specs.List.{list_all, zip};
ghost use Rattle.sq_words.specs.Lists.{contains_bytes};
ghost use Rattle.sq_value.specs.Schemas.{schema_error};
ghost use Rattle.sq_rules.specs.Limits.{told_source_within};
ghost use Rattle.sq_tables.specs.Refusals.{IsAnswerOf, is_memory};
ghost use Rattle.sq_reader.specs.Sources.{column_in, columns_from, kind_named, sources_from};

use crate::push;
use sq_net::{NetErr, Part, Source};
use sq_rules::{is_name, place_at};
use sq_tables::SourceTable;
use sq_value::{Kind, Name, Schema, copy_name, same_text};
use std::alloc::{AllocError, Global};

fn kind_named(word: &str) -> Option<Kind>
    ensures { result ≡ kind_named word.now }
{
    if same_text(word, "int") {
        return Some(Kind::Int);
    }
    if same_text(word, "bool") {
        return Some(Kind::Bool);
    }
    if same_text(word, "text") {
        return Some(Kind::Text);
    }
    None
}

/// Whether a text is one of these names.
pub(crate) fn is_among(text: &str, names: &[Name]) -> bool
    ensures { result ≡ contains_bytes text.now names.now }
{
    names.iter().any(|name| same_text(text, name.as_str()))
}

fn column_in(
    alloc: Global,
    before: &[Name],
    entry: &str,
) -> Result<Option<(Name, Kind)>, AllocError>
    ensures { IfOk result (λ o. o ≡ column_in before.now entry.now) }
{
    let Some((name, kind)) = entry.split_once(':') else {
        return Ok(None);
    };
    let Some(kind) = kind_named(kind) else {
        return Ok(None);
    };
    if !is_name(name) || is_among(name, before) {
        return Ok(None);
    }
    Ok(Some((Name::new(alloc, name)?, kind)))
}

/// The schema of names and kinds that are one.
pub(crate) fn schema_of(names: Vec<Name>, kinds: Vec<Kind>) -> Schema
    requires { schema_error names.items kinds.items ≡ None }
    ensures { result ≡ zip names.items kinds.items }
{
    match Schema::new(names, kinds) {
        Ok(schema) => schema,
        Err(_) => unreachable!(),
    }
}

fn schema_in(alloc: Global, number: usize, fields: &[Name]) -> Result<Schema, NetErr>
    requires number { number < 2 ^ 32 }
    requires some { 1 ≤ length fields.now }
    requires few { length fields.now ≤ 16 }
    ensures { IsAnswerOf result (columns_from number 0 [] fields.now) }
{
    let mut names = Vec::new(alloc);
    let mut kinds = Vec::new(alloc);
    for (item, field) in fields.iter().enumerate() {
        match column_in(alloc, &names, field.as_str())? {
            Some((name, kind)) => {
                push(&mut names, name)?;
                push(&mut kinds, kind)?;
            }
            None => return Err(NetErr::Schema(place_at(Part::Source, number, item))),
        }
    }
    Ok(schema_of(names, kinds))
}

/// The sources with their schemas, or the first field that is no column.
pub(crate) fn sources_in(alloc: Global, sources: &[SourceTable]) -> Result<Vec<Source>, NetErr>
    requires few { length sources.now ≤ 8 }
    requires within { list_all told_source_within sources.now ≡ true }
    ensures ok { IfOk result (λ v. sources_from 0 sources.now ≡ Ok v.items) }
    ensures err { IfErr result (λ e. is_memory e ≡ false → sources_from 0 sources.now ≡ Err e) }
{
    let mut typed = Vec::new(alloc);
    for (number, source) in sources.iter().enumerate() {
        let schema = schema_in(alloc, number, source.fields.as_slice())?;
        let name = copy_name(&source.name)?;
        let file = copy_name(&source.file)?;
        push(&mut typed, Source { name, file, schema })?;
    }
    Ok(typed)
}
