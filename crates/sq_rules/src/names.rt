// The rules on names.
ghost use Rattle.std.specs.Prelude.{◌≡◌, ◌+◌, ◌<◌, ◌≤◌, ◌^◌, ◌++◌, IfOk, OnOk, IfSome, length, map};
ghost use Rattle.std.specs.List.{list_all, list_any};
ghost use Rattle.sq_words.specs.Lists.{contains_bytes, same_bytes};
ghost use Rattle.sq_net.specs.Names.{has_name_form, is_name, reserved};
ghost use Rattle.sq_rules.specs.Limits.{first_failing};
ghost use Rattle.sq_rules.specs.Naming.{first_repeat, name_place, place_in_space, space_names, twice_place};
ghost use Rattle.sq_expr.specs.Tokens.{in_word};

use crate::places::part_place;
use indexmap::IndexSet;
use sq_net::{Part, Place};
use sq_tables::{BoxTable, NetworkTable, OutputTable, SourceTable};
use sq_value::{Name, copy_name, same_text};
use std::alloc::{AllocError, Global};

fn may_follow(byte: u8) -> bool
    ensures { result ≡ in_word byte }
{
    byte.is_ascii_lowercase() || byte.is_ascii_digit() || byte == b'_'
}

fn follow(bytes: &[u8]) -> bool
    ensures { result ≡ list_all in_word bytes.now }
{
    bytes.iter().all(|byte| may_follow(*byte))
}

fn has_name_form(text: &[u8]) -> bool
    ensures { result ≡ has_name_form text.now }
{
    match text {
        [] => false,
        [first, rest @ ..] => first.is_ascii_lowercase() && follow(rest) && rest.len() < 32,
    }
}

fn is_one_of(text: &str, words: &[&str]) -> bool
    ensures { result ≡ list_any (λ word. same_bytes text.now word.now) words.now }
{
    words.iter().any(|word| same_text(text, word))
}

fn is_reserved(text: &str) -> bool
    ensures { result ≡ contains_bytes text.now reserved }
{
    is_one_of(
        text,
        &["and", "or", "not", "is", "null", "true", "false", "time"],
    )
}

/// Whether a text is a name: a lower-case letter and then up to 31 of lower-case letters, digits and `_`, and no word of expressions.
pub fn is_name(text: &str) -> bool
    ensures { result ≡ is_name text.now }
{
    has_name_form(text.as_bytes()) && !is_reserved(text)
}

fn unnamed_source(sources: &[SourceTable]) -> Option<usize>
    ensures { result ≡ first_failing (λ s. is_name s.name) sources.now }
{
    sources
        .iter()
        .position(|source| !is_name(source.name.as_str()))
}

fn unnamed_box(boxes: &[BoxTable]) -> Option<usize>
    ensures { result ≡ first_failing (λ b. is_name b.name) boxes.now }
{
    boxes.iter().position(|b| !is_name(b.name.as_str()))
}

fn unnamed_output(outputs: &[OutputTable]) -> Option<usize>
    ensures { result ≡ first_failing (λ o. is_name o.name) outputs.now }
{
    outputs
        .iter()
        .position(|output| !is_name(output.name.as_str()))
}

/// The first source, box or output whose name is none.
pub(crate) fn name_place(raw: &NetworkTable) -> Option<Place>
    requires sources { length raw.now.sources ≤ 8 }
    requires boxes { length raw.now.boxes ≤ 128 }
    requires outputs { length raw.now.outputs ≤ 32 }
    ensures { result ≡ name_place raw.now }
{
    if let Some(number) = unnamed_source(raw.sources.as_slice()) {
        return Some(part_place(Part::Source, number));
    }
    if let Some(number) = unnamed_box(raw.boxes.as_slice()) {
        return Some(part_place(Part::Box, number));
    }
    if let Some(number) = unnamed_output(raw.outputs.as_slice()) {
        return Some(part_place(Part::Output, number));
    }
    None
}

fn first_repeat(alloc: Global, names: &[Name]) -> Result<Option<usize>, AllocError>
    ensures first { IfOk result (λ o. o ≡ first_repeat names.now) }
    ensures within { IfOk result (λ o. IfSome o (λ n. n < length names.now)) }
{
    let mut seen: IndexSet<&str> = IndexSet::new(alloc);
    for (place, name) in names.iter().enumerate() {
        let (_, is_new) = seen.insert_full(name.as_str())?;
        if !is_new {
            return Ok(Some(place));
        }
    }
    Ok(None)
}

pub(crate) fn source_names(alloc: Global, sources: &[SourceTable]) -> Result<Vec<Name>, AllocError>
    ensures names { IfOk result (λ v. v.items ≡ map (λ x. x.name) sources.now) }
    ensures count { IfOk result (λ v. length v.items ≡ length sources.now) }
{
    let mut names = Vec::new(alloc);
    for source in sources {
        names.push(copy_name(&source.name)?)?;
    }
    Ok(names)
}

fn push_box_names(names: &mut Vec<Name>, boxes: &[BoxTable]) -> Result<(), AllocError>
    ensures names { OnOk result (names.new.items ≡ names.old.items ++ map (λ x. x.name) boxes.now) }
    ensures count { OnOk result (length names.new.items ≡ length names.old.items + length boxes.now) }
{
    for b in boxes {
        names.push(copy_name(&b.name)?)?;
    }
    Ok(())
}

fn output_names(alloc: Global, outputs: &[OutputTable]) -> Result<Vec<Name>, AllocError>
    ensures names { IfOk result (λ v. v.items ≡ map (λ x. x.name) outputs.now) }
    ensures count { IfOk result (λ v. length v.items ≡ length outputs.now) }
{
    let mut names = Vec::new(alloc);
    for output in outputs {
        names.push(copy_name(&output.name)?)?;
    }
    Ok(names)
}

fn space_names(alloc: Global, raw: &NetworkTable) -> Result<Vec<Name>, AllocError>
    ensures names { IfOk result (λ v. v.items ≡ space_names raw.now) }
    ensures count { IfOk result (λ v. length v.items ≡ length raw.now.sources + length raw.now.boxes) }
{
    let mut names = source_names(alloc, raw.sources.as_slice())?;
    push_box_names(&mut names, raw.boxes.as_slice())?;
    Ok(names)
}

fn place_in_space(raw: &NetworkTable, number: usize) -> Place
    requires { number < 2 ^ 32 }
    ensures { result ≡ place_in_space raw.now number }
{
    let sources = raw.sources.as_slice().len();
    if number < sources {
        part_place(Part::Source, number)
    } else {
        part_place(Part::Box, number - sources)
    }
}

/// The first place whose name stands before in its space.
pub(crate) fn twice_place(alloc: Global, raw: &NetworkTable) -> Result<Option<Place>, AllocError>
    requires sources { length raw.now.sources ≤ 8 }
    requires boxes { length raw.now.boxes ≤ 128 }
    requires outputs { length raw.now.outputs ≤ 32 }
    ensures { IfOk result (λ o. o ≡ twice_place raw.now) }
{
    let names = space_names(alloc, raw)?;
    if let Some(number) = first_repeat(alloc, &names)? {
        return Ok(Some(place_in_space(raw, number)));
    }
    let outputs = output_names(alloc, raw.outputs.as_slice())?;
    match first_repeat(alloc, &outputs)? {
        Some(number) => Ok(Some(part_place(Part::Output, number))),
        None => Ok(None),
    }
}
