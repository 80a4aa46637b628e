// What the tables of a TOML document hold, by the kinds that are wanted.
ghost use Rattle.std.specs.Prelude.{◌≡◌, [], false, Some, None, IfOk, IfErr, codes, map, option_map, string_bytes};
ghost use Rattle.std.specs.List.{list_all, list_any};
ghost use Rattle.std.specs.BTreeMap.{keys};
ghost use Rattle.sq_words.specs.Lists.{same_bytes};
ghost use Rattle.sq_net.specs.declared.NetErr.TheVariants as broken;
ghost use Rattle.toml.specs.Data.{get_member, as_str, as_integer, as_table};
ghost use Rattle.toml.specs.View.{view, table_view, array_view};
ghost use Rattle.sq_tables.specs.Documents.{document_in, each_item, has_only, list_in, optional, required};
ghost use Rattle.sq_tables.specs.Readings.{IsUnreadTable, Reads};
ghost use Rattle.sq_tables.specs.Shapes.{default_selectivity, setting_in};
ghost use Rattle.sq_tables.specs.Refusals.{is_memory};

use crate::tables::Setting;
use sq_net::NetErr;
use sq_value::{ListOf, Name, same_text};
use std::alloc::{AllocError, Global};
pub(crate) use toml::value::Array;
pub(crate) use toml::{Table, Value};

/// Why a value can't be read as what is wanted.
#[derive(Clone, Copy, PartialEq, Eq, Drop)]
pub(crate) enum TableErr {
    /// It isn't there, or is of another kind.
    Shape,
    Memory,
}

impl From<AllocError> for TableErr {
    ghost use Rattle.std.specs.Prelude.{◌≡◌};
    ghost use Rattle.sq_tables.specs.declared.document.TableErr.{TableErr};
    ghost use Rattle.sq_tables.specs.declared.document.TableErr.TheVariants as unread;

    ghost from_gives = { λ _ e. e ≡ unread.Memory };

    fn from(_e: AllocError) -> TableErr {
        TableErr::Memory
    }
}

/// The document of a file's bytes.
pub(crate) fn document_in(alloc: Global, bytes: &[u8]) -> Result<Table, NetErr>
    ensures ok { IfOk result (λ t. document_in bytes.now ≡ Some (table_view t)) }
    ensures toml { IfErr result (λ e. is_memory e ≡ false → (e ≡ broken.Toml) × (document_in bytes.now ≡ None)) }
{
    match toml::table_from_slice(alloc, bytes) {
        Ok(table) => Ok(table),
        Err(e) => {
            if e.is_memory() {
                return Err(NetErr::Memory);
            }
            Err(NetErr::Toml)
        }
    }
}

/// The value at a key.
pub(crate) fn value_at<'a>(table: &'a Table, key: &str) -> Option<&'a Value>
    ensures { option_map (λ v. view v.now) result ≡ get_member key.now (table_view table.now) }
{
    table.get(key)
}

/// Whether a text is one of these.
pub(crate) fn is_known(key: &str, known: &[&str]) -> bool
    ensures { result ≡ list_any (λ word. same_bytes key.now word.now) known.now }
{
    known.iter().any(|word| same_text(key, word))
}

fn all_known(table: &Table, known: &[&str]) -> bool
    ensures { result ≡ list_all (λ key. list_any (λ word. same_bytes (string_bytes key) word.now) known.now) (keys table.now) }
{
    for key in table.keys() {
        if !is_known(key.as_str(), known) {
            return false;
        }
    }
    true
}

/// Whether each key of a table is one of these.
pub(crate) fn has_only(table: &Table, known: &[&str]) -> bool
    ensures { result ≡ has_only (map (λ k. k.now) known.now) (table_view table.now) }
{
    all_known(table, known)
}

pub(crate) fn text_in(alloc: Global, value: &Value) -> Result<Name, TableErr>
    ensures { Reads result (as_str (view value.now)) }
{
    match value.as_str() {
        Some(text) => Ok(Name::new(alloc, text)?),
        None => Err(TableErr::Shape),
    }
}

/// The text at a key.
pub(crate) fn text_at(alloc: Global, table: &Table, key: &str) -> Result<Name, TableErr>
    ensures { Reads result (required as_str (get_member key.now (table_view table.now))) }
{
    match value_at(table, key) {
        Some(value) => text_in(alloc, value),
        None => Err(TableErr::Shape),
    }
}

/// The number at a key.
pub(crate) fn number_at(table: &Table, key: &str) -> Result<i64, TableErr>
    ensures { Reads result (required as_integer (get_member key.now (table_view table.now))) }
{
    match value_at(table, key) {
        Some(value) => value.as_integer().ok_or(TableErr::Shape),
        None => Err(TableErr::Shape),
    }
}

/// The number at a key, or this one where the key isn't there.
pub(crate) fn number_or(table: &Table, key: &str, default: i64) -> Result<i64, TableErr>
    ensures { Reads result (optional default as_integer (get_member key.now (table_view table.now))) }
{
    match value_at(table, key) {
        Some(value) => value.as_integer().ok_or(TableErr::Shape),
        None => Ok(default),
    }
}

fn texts_among(alloc: Global, items: &Array) -> Result<Option<Vec<Name>>, AllocError>
    ensures { IfOk result (λ o. option_map (λ v. v.items) o ≡ each_item as_str (array_view items.now)) }
{
    let mut found = Vec::new(alloc);
    for item in items {
        let Some(text) = item.as_str() else {
            return Ok(None);
        };
        found.push(Name::new(alloc, text)?)?;
    }
    Ok(Some(found))
}

fn texts_in(alloc: Global, value: &Value) -> Result<ListOf<Name>, TableErr>
    ensures { Reads result (list_in as_str (view value.now)) }
{
    let Some(items) = value.as_array() else {
        return Err(TableErr::Shape);
    };
    match texts_among(alloc, items)? {
        Some(texts) => Ok(ListOf::new(texts)),
        None => Err(TableErr::Shape),
    }
}

/// The list of texts at a key.
pub(crate) fn texts_at(alloc: Global, table: &Table, key: &str) -> Result<ListOf<Name>, TableErr>
    ensures { Reads result (required (list_in as_str) (get_member key.now (table_view table.now))) }
{
    match value_at(table, key) {
        Some(value) => texts_in(alloc, value),
        None => Err(TableErr::Shape),
    }
}

/// The list of texts at a key, or none where the key isn't there.
pub(crate) fn any_texts_at(
    alloc: Global,
    table: &Table,
    key: &str,
) -> Result<ListOf<Name>, TableErr>
    ensures { Reads result (optional [] (list_in as_str) (get_member key.now (table_view table.now))) }
{
    match value_at(table, key) {
        Some(value) => texts_in(alloc, value),
        None => Ok(ListOf::new(Vec::new(alloc))),
    }
}

fn setting_in(alloc: Global, value: &Value) -> Result<Setting, TableErr>
    ensures { Reads result (setting_in (view value.now)) }
{
    let Some(items) = value.as_array() else {
        return Err(TableErr::Shape);
    };
    if items.len() != 2 {
        return Err(TableErr::Shape);
    }
    let name = text_in(alloc, &items[0])?;
    let text = text_in(alloc, &items[1])?;
    Ok(Setting { name, text })
}

fn settings_among(alloc: Global, items: &Array) -> Result<Option<Vec<Setting>>, AllocError>
    ensures { IfOk result (λ o. option_map (λ v. v.items) o ≡ each_item setting_in (array_view items.now)) }
{
    let mut found = Vec::new(alloc);
    for item in items {
        match setting_in(alloc, item) {
            Ok(setting) => found.push(setting)?,
            Err(TableErr::Shape) => return Ok(None),
            Err(TableErr::Memory) => return Err(AllocError),
        }
    }
    Ok(Some(found))
}

/// The list of pairs of a name and an expression at a key.
pub(crate) fn settings_at(
    alloc: Global,
    table: &Table,
    key: &str,
) -> Result<ListOf<Setting>, TableErr>
    ensures { Reads result (required (list_in setting_in) (get_member key.now (table_view table.now))) }
{
    let Some(value) = value_at(table, key) else {
        return Err(TableErr::Shape);
    };
    let Some(items) = value.as_array() else {
        return Err(TableErr::Shape);
    };
    match settings_among(alloc, items)? {
        Some(settings) => Ok(ListOf::new(settings)),
        None => Err(TableErr::Shape),
    }
}

fn numbers_among(alloc: Global, items: &Array) -> Result<Option<Vec<i64>>, AllocError>
    ensures { IfOk result (λ o. option_map (λ v. v.items) o ≡ each_item as_integer (array_view items.now)) }
{
    let mut found = Vec::new(alloc);
    for item in items {
        let Some(number) = item.as_integer() else {
            return Ok(None);
        };
        found.push(number)?;
    }
    Ok(Some(found))
}

fn all_kept(alloc: Global, ports: usize) -> Result<ListOf<i64>, AllocError>
    ensures { IfOk result (λ v. v ≡ default_selectivity ports) }
{
    Ok(ListOf::new(vec![in alloc; 1000; ports]?))
}

/// The numbers at the key `selectivity`, or 1000 for each port where it isn't there.
pub(crate) fn selectivity_at(
    alloc: Global,
    table: &Table,
    ports: usize,
) -> Result<ListOf<i64>, TableErr>
    ensures { Reads result (optional (default_selectivity ports) (list_in as_integer) (get_member (codes "selectivity") (table_view table.now))) }
{
    let Some(value) = value_at(table, "selectivity") else {
        return Ok(all_kept(alloc, ports)?);
    };
    let Some(items) = value.as_array() else {
        return Err(TableErr::Shape);
    };
    match numbers_among(alloc, items)? {
        Some(numbers) => Ok(ListOf::new(numbers)),
        None => Err(TableErr::Shape),
    }
}

fn tables_among<'a>(alloc: Global, items: &'a Array) -> Result<Option<Vec<&'a Table>>, AllocError>
    ensures { IfOk result (λ o. option_map (λ v. map (λ t. table_view t.now) v.items) o ≡ each_item as_table (array_view items.now)) }
{
    let mut found = Vec::new(alloc);
    for item in items {
        let Some(table) = item.as_table() else {
            return Ok(None);
        };
        found.push(table)?;
    }
    Ok(Some(found))
}

fn tables_in<'a>(alloc: Global, value: &'a Value) -> Result<Vec<&'a Table>, TableErr>
    ensures ok { IfOk result (λ v. list_in as_table (view value.now) ≡ Some (map (λ t. table_view t.now) v.items)) }
    ensures err { IfErr result (λ e. IsUnreadTable e (list_in as_table (view value.now))) }
{
    let Some(items) = value.as_array() else {
        return Err(TableErr::Shape);
    };
    tables_among(alloc, items)?.ok_or(TableErr::Shape)
}

/// The list of tables at a key.
pub(crate) fn tables_at<'a>(
    alloc: Global,
    table: &'a Table,
    key: &str,
) -> Result<Vec<&'a Table>, TableErr>
    ensures ok { IfOk result (λ v. required (list_in as_table) (get_member key.now (table_view table.now)) ≡ Some (map (λ t. table_view t.now) v.items)) }
    ensures err { IfErr result (λ e. IsUnreadTable e (required (list_in as_table) (get_member key.now (table_view table.now)))) }
{
    match value_at(table, key) {
        Some(value) => tables_in(alloc, value),
        None => Err(TableErr::Shape),
    }
}

/// The list of tables at a key, or none where the key isn't there.
pub(crate) fn any_tables_at<'a>(
    alloc: Global,
    table: &'a Table,
    key: &str,
) -> Result<Vec<&'a Table>, TableErr>
    ensures ok { IfOk result (λ v. optional [] (list_in as_table) (get_member key.now (table_view table.now)) ≡ Some (map (λ t. table_view t.now) v.items)) }
    ensures err { IfErr result (λ e. IsUnreadTable e (optional [] (list_in as_table) (get_member key.now (table_view table.now)))) }
{
    match value_at(table, key) {
        Some(value) => tables_in(alloc, value),
        None => Ok(Vec::new(alloc)),
    }
}
