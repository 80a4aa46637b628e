// What an Aggregate or a Resample answers, and what an Aggregate groups by, over columns that it takes.
ghost use Rattle.std.specs.Prelude.{◌≡◌, ◌<◌, ◌^◌, ◌++◌, [], false, Ok, Err, IfOk, IfErr, IfSome, OnOk, length, position};
ghost use Rattle.std.specs.List.{filter_map};
ghost use Rattle.sq_words.specs.Lists.{same_bytes};
ghost use Rattle.sq_expr.specs.Checking.{column_of};
ghost use Rattle.sq_expr.specs.Kinds.{kind_at};
ghost use Rattle.sq_net.specs.Columns.{if_int, kind_of_func};
ghost use Rattle.sq_reader.specs.Columns.{give_names, int_place};
ghost use Rattle.sq_reader.specs.Functions.{func_in, func_over, func_for, funcs_from, group_from, group_place, kinds_answered};
ghost use Rattle.sq_tables.specs.Refusals.{is_memory};

use crate::push;
use crate::sources::is_among;
use sq_aggfn::Func;
use sq_net::{NetErr, Part};
use sq_rules::place_at;
use sq_tables::{Answer, AnswerColumn, Over};
use sq_value::{Kind, Name, Schema, copy_name, same_text};
use std::alloc::{AllocError, Global};

fn place_among(name: &str, names: &[Name]) -> Option<usize>
    ensures first { result ≡ position (same_bytes name.now) names.now }
    ensures within { IfSome result (λ i. i < length names.now) }
{
    names
        .iter()
        .position(|other| same_text(name, other.as_str()))
}

fn column_of(name: &str, scope: &Schema) -> Option<u32>
    ensures { result ≡ column_of name.now scope.now }
{
    match place_among(name, scope.names()) {
        Some(place) => Some(place as u32),
        None => None,
    }
}

fn kind_at(scope: &Schema, place: u32) -> Option<Kind>
    ensures { result ≡ kind_at scope.now place }
{
    scope.kinds().get(place as usize).copied()
}

fn if_int(kind: Option<Kind>) -> Option<Kind>
    ensures { result ≡ if_int kind }
{
    match kind? {
        Kind::Int => Some(Kind::Int),
        Kind::Bool | Kind::Text => None,
    }
}

/// The place of a column of numbers.
pub(crate) fn int_place(scope: &Schema, name: &str) -> Option<u32>
    ensures { result ≡ int_place scope.now name.now }
{
    let place = column_of(name, scope)?;
    match if_int(kind_at(scope, place)) {
        Some(_) => Some(place),
        None => None,
    }
}

fn func_over(over: Over, place: u32) -> Func
    ensures { result ≡ func_over over place }
{
    match over {
        Over::Sum => Func::Sum(place),
        Over::Avg => Func::Avg(place),
        Over::Min => Func::Min(place),
        Over::Max => Func::Max(place),
        Over::First => Func::First(place),
        Over::Last => Func::Last(place),
    }
}

fn func_for(scope: &Schema, answer: &Answer) -> Option<Func>
    ensures { result ≡ func_for scope.now answer.now }
{
    match answer {
        Answer::Count => Some(Func::Count),
        Answer::Field { over, field } => {
            let place = column_of(field.as_str(), scope)?;
            Some(func_over(*over, place))
        }
    }
}

fn kind_of_func(scope: &Schema, func: Func) -> Option<Kind>
    ensures { result ≡ kind_of_func scope.now func }
{
    match func {
        Func::Count => Some(Kind::Int),
        Func::Sum(place) | Func::Avg(place) => if_int(kind_at(scope, place)),
        Func::Min(place) | Func::Max(place) | Func::First(place) | Func::Last(place) => {
            kind_at(scope, place)
        }
    }
}

fn func_in(scope: &Schema, answer: &Answer) -> Option<Func>
    ensures { result ≡ func_in scope.now answer.now }
{
    let func = func_for(scope, answer)?;
    if kind_of_func(scope, func).is_none() {
        return None;
    }
    Some(func)
}

/// The functions, or the first whose field isn't there or isn't of a kind that it takes.
pub(crate) fn funcs_in(
    alloc: Global,
    number: usize,
    give: &[AnswerColumn],
    scope: &Schema,
) -> Result<Vec<Func>, NetErr>
    requires number { number < 2 ^ 32 }
    requires few { length give.now < 2 ^ 32 }
    ensures ok { IfOk result (λ v. funcs_from number 0 scope.now give.now ≡ Ok v.items) }
    ensures err { IfErr result (λ e. is_memory e ≡ false → funcs_from number 0 scope.now give.now ≡ Err e) }
{
    let mut funcs = Vec::new(alloc);
    for (item, column) in give.iter().enumerate() {
        match func_in(scope, &column.answer) {
            Some(func) => push(&mut funcs, func)?,
            None => return Err(NetErr::Typing(place_at(Part::Box, number, item))),
        }
    }
    Ok(funcs)
}

fn group_place(scope: &Schema, before: &[Name], name: &str) -> Option<u32>
    ensures { result ≡ group_place scope.now before.now name.now }
{
    if is_among(name, before) {
        return None;
    }
    column_of(name, scope)
}

/// The places of the fields to group by, or the first that isn't there or repeats.
pub(crate) fn group_in(
    alloc: Global,
    number: usize,
    group: &[Name],
    scope: &Schema,
) -> Result<Vec<u32>, NetErr>
    requires number { number < 2 ^ 32 }
    requires few { length group.now < 2 ^ 32 }
    ensures ok { IfOk result (λ v. group_from number 0 scope.now [] group.now ≡ Ok v.items) }
    ensures err { IfErr result (λ e. is_memory e ≡ false → group_from number 0 scope.now [] group.now ≡ Err e) }
{
    let mut places = Vec::new(alloc);
    for (item, name) in group.iter().enumerate() {
        match group_place(scope, &group[..item], name.as_str()) {
            Some(place) => push(&mut places, place)?,
            None => return Err(NetErr::Group(place_at(Part::Box, number, item))),
        }
    }
    Ok(places)
}

/// The names of what is given.
pub(crate) fn give_names(alloc: Global, give: &[AnswerColumn]) -> Result<Vec<Name>, AllocError>
    ensures { IfOk result (λ v. v.items ≡ give_names give.now) }
{
    let mut names = Vec::new(alloc);
    for column in give {
        names.push(copy_name(&column.name)?)?;
    }
    Ok(names)
}

fn push_names(names: &mut Vec<Name>, more: &[Name]) -> Result<(), AllocError>
    ensures { OnOk result (names.new.items ≡ names.old.items ++ more.now) }
{
    for name in more {
        names.push(copy_name(name)?)?;
    }
    Ok(())
}

/// The names to group by, or of the left columns, then those of what is given.
pub(crate) fn names_shown(
    alloc: Global,
    before: &[Name],
    given: &[Name],
) -> Result<Vec<Name>, AllocError>
    ensures { IfOk result (λ v. v.items ≡ before.now ++ given.now) }
{
    let mut names = Vec::new(alloc);
    push_names(&mut names, before)?;
    push_names(&mut names, given)?;
    Ok(names)
}

fn kinds_at(alloc: Global, scope: &Schema, places: &[u32]) -> Result<Vec<Kind>, AllocError>
    ensures { IfOk result (λ v. v.items ≡ filter_map (kind_at scope.now) places.now) }
{
    places
        .iter()
        .filter_map(|place| kind_at(scope, *place))
        .collect(alloc)
}

/// The kinds of the functions.
pub(crate) fn kinds_answered(
    alloc: Global,
    scope: &Schema,
    funcs: &[Func],
) -> Result<Vec<Kind>, AllocError>
    ensures { IfOk result (λ v. v.items ≡ kinds_answered scope.now funcs.now) }
{
    funcs
        .iter()
        .filter_map(|func| kind_of_func(scope, *func))
        .collect(alloc)
}

/// The kinds to group by, then those of the functions.
pub(crate) fn kinds_shown(
    alloc: Global,
    scope: &Schema,
    places: &[u32],
    funcs: &[Func],
) -> Result<Vec<Kind>, AllocError>
    ensures { IfOk result (λ v. v.items ≡ filter_map (kind_at scope.now) places.now ++ kinds_answered scope.now funcs.now) }
{
    let mut kinds = kinds_at(alloc, scope, places)?;
    let answered = kinds_answered(alloc, scope, funcs)?;
    kinds.extend_from_slice(&answered)?;
    Ok(kinds)
}
