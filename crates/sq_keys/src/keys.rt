// By which columns the sources are cut that words name.
ghost use Rattle.std.specs.Prelude.{◌≡◌, ◌+◌, ◌^◌, ◌<◌, Err, IfOk, IfErr, IfSome, Ok, length, map, []};
ghost use Rattle.std.specs.List.{position};
ghost use Rattle.std.specs.Option.{option_copied};
ghost use Rattle.sq_words.specs.Lists.{same_bytes};
ghost use Rattle.sq_keys.specs.Keys.{IsBadKey, column_by, column_for, column_named, cuts_asked, first_bad, is_paired, pair_named, source_named, why_bad};

use crate::{KeysErr, Pair};
use sq_net::Source;
use sq_teller::KeyWhy;
use sq_value::{Name, Schema, same_text};
use std::alloc::{AllocError, Global};

fn source_named<'a>(sources: &'a [Source], name: &str) -> Option<&'a Source>
    ensures { option_copied result ≡ source_named sources.now name.now }
{
    sources.iter().find(|s| same_text(s.name.as_str(), name))
}

fn place_among(names: &[Name], name: &str) -> Option<usize>
    ensures first { result ≡ position (same_bytes name.now) names.now }
    ensures within { IfSome result (λ i. i < length names.now) }
{
    names.iter().position(|own| same_text(name, own.as_str()))
}

fn column_named(schema: &Schema, name: &str) -> Option<u32>
    ensures { result ≡ column_named schema.now name.now }
{
    match place_among(schema.names(), name) {
        Some(column) => Some(column as u32),
        None => None,
    }
}

fn pair_named<'a>(pairs: &'a [Pair], source: &str) -> Option<&'a Pair>
    ensures { option_copied result ≡ pair_named pairs.now source.now }
{
    pairs.iter().find(|p| same_text(p.source.as_str(), source))
}

fn is_paired(pairs: &[Pair], source: &str) -> bool
    ensures { result ≡ is_paired pairs.now source.now }
{
    pairs.iter().any(|p| same_text(p.source.as_str(), source))
}

// The first rule that a pair breaks, where these stand before it.
fn why_bad(sources: &[Source], before: &[Pair], pair: &Pair) -> Option<KeyWhy>
    ensures { result ≡ why_bad sources.now before.now pair.now }
{
    let Some(source) = source_named(sources, pair.source.as_str()) else {
        return Some(KeyWhy::NoSource);
    };
    if is_paired(before, pair.source.as_str()) {
        return Some(KeyWhy::Twice);
    }
    match column_named(&source.schema, pair.field.as_str()) {
        Some(_) => None,
        None => Some(KeyWhy::NoField),
    }
}

// The first pair, by its number from 1, that breaks a rule, and the rule.
fn first_bad(sources: &[Source], pairs: &[Pair]) -> Option<(u32, KeyWhy)>
    requires few { length pairs.now < 2 ^ 32 }
    ensures { result ≡ first_bad sources.now [] pairs.now }
{
    for (at, pair) in pairs.iter().enumerate() {
        if let Some(why) = why_bad(sources, &pairs[..at], pair) {
            return Some((at as u32 + 1, why));
        }
    }
    None
}

fn column_for(pairs: &[Pair], source: &Source) -> Option<u32>
    ensures { result ≡ column_for pairs.now source.now }
{
    match pair_named(pairs, source.name.as_str()) {
        Some(pair) => column_named(&source.schema, pair.field.as_str()),
        None => None,
    }
}

fn columns_for(
    alloc: Global,
    sources: &[Source],
    pairs: &[Pair],
) -> Result<Vec<Option<u32>>, AllocError>
    ensures { IfOk result (λ v. v.items ≡ map (column_for pairs.now) sources.now) }
{
    let mut by = Vec::new(alloc);
    for source in sources {
        by.push(column_for(pairs, source))?;
    }
    Ok(by)
}

/// For each source the column by which it is cut, or none where each part has it whole; or the first pair that breaks a rule.
pub fn cuts_asked(
    alloc: Global,
    sources: &[Source],
    pairs: &[Pair],
) -> Result<Vec<Option<u32>>, KeysErr>
    requires few { length pairs.now < 2 ^ 32 }
    ensures cuts { IfOk result (λ v. cuts_asked sources.now pairs.now ≡ Ok v.items) }
    ensures bad { IfErr result (λ e. IsBadKey (cuts_asked sources.now pairs.now) e) }
{
    if let Some((key, why)) = first_bad(sources, pairs) {
        return Err(KeysErr::Bad { key, why });
    }
    match columns_for(alloc, sources, pairs) {
        Ok(by) => Ok(by),
        Err(_) => Err(KeysErr::Memory),
    }
}
