// What each kind of box does on what it takes, and the schemas of its ports.
ghost use Rattle.std.specs.Prelude.{◌≡◌, ◌<◌, ◌≤◌, ◌^◌, ◌+◌, ◌∷◌, [], true, false, Ok, Err, IfOk, IfErr, IfSome, length};
ghost use Rattle.sq_net.specs.Columns.{first_columns, second_columns};
ghost use Rattle.sq_net.specs.SoundNetworks.{takes_within};
ghost use Rattle.sq_tables.specs.declared.tables.BodyTable.TheVariants as raw;
ghost use Rattle.sq_tables.specs.Refusals.{is_memory};
ghost use Rattle.sq_reader.specs.Columns.{typed_aggregate, bad_given, typed_body, bsort_of, filter_of, join_of, map_of, nat_of, typed_resample, too_many, union_of, window_read};
ghost use Rattle.sq_rules.specs.Limits.{told_body_within};
ghost use Rattle.sq_rules.specs.Streaming.{kind_of_told_body};

use crate::boxes::{
    bad_name, copies_of, kinds_set, names_set, predicates_in, texts_set, unlike, values_in,
};
use crate::expressions::predicate_of;
use crate::functions::{
    funcs_in, give_names, group_in, int_place, kinds_answered, kinds_shown, names_shown,
};
use crate::pairs::{kinds_of_both, left_names, pair_schema};
use crate::sources::schema_of;
use sq_aggfn::WindowSpec;
use sq_net::{Body, NetErr, Part};
use sq_rules::place_at;
use sq_tables::{AnswerColumn, BodyTable, Setting};
use sq_value::{ListOf, Name, Schema, copy_schema};
use std::alloc::{AllocError, Global};

/// A number that isn't negative; one that is, which the limits rule out, counts as 0.
pub(crate) fn natural(number: i64) -> u64
    ensures { result ≡ nat_of number }
{
    u64::try_from(number).unwrap_or(0)
}

fn one_port(alloc: Global, schema: Schema) -> Result<Vec<Schema>, AllocError>
    ensures { IfOk result (λ v. v.items ≡ schema ∷ []) }
{
    let mut ports = Vec::new(alloc);
    ports.push(schema)?;
    Ok(ports)
}

fn first_of(ins: &[Schema]) -> &Schema
    requires { 0 < length ins.now }
    ensures { result.now ≡ first_columns ins.now }
{
    match ins {
        [first, ..] => first,
        [] => unreachable!(),
    }
}

fn second_of(ins: &[Schema]) -> &Schema
    requires { 1 < length ins.now }
    ensures { result.now ≡ second_columns ins.now }
{
    match ins {
        [_, rest @ ..] => first_of(rest),
        [] => unreachable!(),
    }
}

#[tactic(auto, using(sq_rules::proofs::LimitLemmas::predicates_of))]
fn filter_of(
    alloc: Global,
    number: usize,
    preds: &[Name],
    scope: &Schema,
) -> Result<(Body, Vec<Schema>), NetErr>
    requires number { number < 2 ^ 32 }
    requires within { told_body_within (raw.Filter preds.now) ≡ true }
    ensures ok { IfOk result (λ t. filter_of number preds.now scope.now ≡ Ok (t.0, t.1.items)) }
    ensures err { IfErr result (λ e. is_memory e ≡ false → filter_of number preds.now scope.now ≡ Err e) }
{
    let typed = predicates_in(alloc, number, preds, scope)?;
    let ports = copies_of(alloc, scope, preds.len() + 1)?;
    Ok((
        Body::Filter {
            preds: ListOf::new(typed),
        },
        ports,
    ))
}

#[tactic(auto, using(crate::proofs::LimitLemmas::settings_of))]
fn map_of(
    alloc: Global,
    number: usize,
    set: &[Setting],
    scope: &Schema,
) -> Result<(Body, Vec<Schema>), NetErr>
    requires number { number < 2 ^ 32 }
    requires within { told_body_within (raw.Map set.now) ≡ true }
    ensures ok { IfOk result (λ t. map_of number set.now scope.now ≡ Ok (t.0, t.1.items)) }
    ensures err { IfErr result (λ e. is_memory e ≡ false → map_of number set.now scope.now ≡ Err e) }
{
    let names = names_set(alloc, set)?;
    if let Some(item) = bad_name(&[], &names) {
        return Err(NetErr::Schema(place_at(Part::Box, number, item)));
    }
    let texts = texts_set(alloc, set)?;
    let typed = values_in(alloc, number, &texts, scope)?;
    let kinds = kinds_set(alloc, &typed)?;
    let ports = one_port(alloc, schema_of(names, kinds))?;
    Ok((
        Body::Map {
            exprs: ListOf::new(typed),
        },
        ports,
    ))
}

fn union_of(alloc: Global, number: usize, ins: &[Schema]) -> Result<(Body, Vec<Schema>), NetErr>
    requires number { number < 2 ^ 32 }
    requires some { 0 < length ins.now }
    requires few { length ins.now < 2 ^ 32 }
    ensures ok { IfOk result (λ t. union_of number ins.now ≡ Ok (t.0, t.1.items)) }
    ensures err { IfErr result (λ e. is_memory e ≡ false → union_of number ins.now ≡ Err e) }
{
    let first = first_of(ins);
    if let Some(item) = unlike(ins, first) {
        return Err(NetErr::Schema(place_at(Part::Box, number, item)));
    }
    let ports = one_port(alloc, copy_schema(alloc, first)?)?;
    Ok((Body::Union, ports))
}

fn bsort_of(
    alloc: Global,
    number: usize,
    by: &Name,
    slack: i64,
    scope: &Schema,
) -> Result<(Body, Vec<Schema>), NetErr>
    requires number { number < 2 ^ 32 }
    requires within { told_body_within (raw.BSort by.now slack) ≡ true }
    ensures ok { IfOk result (λ t. bsort_of number by.now slack scope.now ≡ Ok (t.0, t.1.items)) }
    ensures err { IfErr result (λ e. is_memory e ≡ false → bsort_of number by.now slack scope.now ≡ Err e) }
{
    let Some(by) = int_place(scope, by.as_str()) else {
        return Err(NetErr::Typing(place_at(Part::Box, number, 0)));
    };
    let ports = one_port(alloc, copy_schema(alloc, scope)?)?;
    Ok((
        Body::BSort {
            by,
            slack: natural(slack) as u32,
        },
        ports,
    ))
}

fn too_many(count: usize) -> Option<usize>
    ensures first { result ≡ too_many count }
    ensures within { IfSome result (λ i. i ≡ 0) }
{
    if count <= 16 { None } else { Some(0) }
}

fn bad_given(before: &[Name], given: &[Name]) -> Option<usize>
    requires before { length before.now ≤ 16 }
    requires given { length given.now ≤ 16 }
    ensures first { result ≡ bad_given before.now given.now }
    ensures within { IfSome result (λ i. i < 16) }
{
    match too_many(before.len() + given.len()) {
        Some(item) => Some(item),
        None => bad_name(before, given),
    }
}

fn typed_aggregate(
    alloc: Global,
    number: usize,
    window: WindowSpec,
    group: &[Name],
    give: &[AnswerColumn],
    scope: &Schema,
) -> Result<(Body, Vec<Schema>), NetErr>
    requires number { number < 2 ^ 32 }
    requires group { length group.now ≤ 16 }
    requires some { 1 ≤ length give.now }
    requires few { length give.now ≤ 16 }
    ensures ok { IfOk result (λ t. typed_aggregate number window group.now give.now scope.now ≡ Ok (t.0, t.1.items)) }
    ensures err { IfErr result (λ e. is_memory e ≡ false → typed_aggregate number window group.now give.now scope.now ≡ Err e) }
{
    let given = give_names(alloc, give)?;
    if let Some(item) = bad_given(group, &given) {
        return Err(NetErr::Schema(place_at(Part::Box, number, item)));
    }
    let funcs = funcs_in(alloc, number, give, scope)?;
    let places = group_in(alloc, number, group, scope)?;
    let names = names_shown(alloc, group, &given)?;
    let kinds = kinds_shown(alloc, scope, &places, &funcs)?;
    let ports = one_port(alloc, schema_of(names, kinds))?;
    Ok((
        Body::Aggregate {
            funcs: ListOf::new(funcs),
            group: ListOf::new(places),
            window,
        },
        ports,
    ))
}

fn join_of(
    alloc: Global,
    number: usize,
    size: i64,
    on: &Name,
    ins: &[Schema],
) -> Result<(Body, Vec<Schema>), NetErr>
    requires number { number < 2 ^ 32 }
    requires within { told_body_within (raw.Join size on.now) ≡ true }
    requires two { length ins.now ≡ 2 }
    ensures ok { IfOk result (λ t. join_of number size on.now ins.now ≡ Ok (t.0, t.1.items)) }
    ensures err { IfErr result (λ e. is_memory e ≡ false → join_of number size on.now ins.now ≡ Err e) }
{
    let left = first_of(ins);
    let right = second_of(ins);
    if let Some(item) = too_many(left.names().len() + right.names().len()) {
        return Err(NetErr::Schema(place_at(Part::Box, number, item)));
    }
    let scope = pair_schema(alloc, left, right)?;
    let on = predicate_of(alloc, number, on, &scope)?;
    let ports = one_port(alloc, scope)?;
    Ok((
        Body::Join {
            size: natural(size),
            on,
        },
        ports,
    ))
}

fn typed_resample(
    alloc: Global,
    number: usize,
    size: u64,
    give: &[AnswerColumn],
    ins: &[Schema],
) -> Result<(Body, Vec<Schema>), NetErr>
    requires number { number < 2 ^ 32 }
    requires some { 1 ≤ length give.now }
    requires few { length give.now ≤ 16 }
    requires two { length ins.now ≡ 2 }
    ensures ok { IfOk result (λ t. typed_resample number size give.now ins.now ≡ Ok (t.0, t.1.items)) }
    ensures err { IfErr result (λ e. is_memory e ≡ false → typed_resample number size give.now ins.now ≡ Err e) }
{
    let left = first_of(ins);
    let right = second_of(ins);
    let shown = left_names(alloc, left.names())?;
    let given = give_names(alloc, give)?;
    if let Some(item) = bad_given(&shown, &given) {
        return Err(NetErr::Schema(place_at(Part::Box, number, item)));
    }
    let funcs = funcs_in(alloc, number, give, right)?;
    let names = names_shown(alloc, &shown, &given)?;
    let answered = kinds_answered(alloc, right, &funcs)?;
    let kinds = kinds_of_both(alloc, left.kinds(), &answered)?;
    let ports = one_port(alloc, schema_of(names, kinds))?;
    Ok((
        Body::Resample {
            size,
            funcs: ListOf::new(funcs),
        },
        ports,
    ))
}

fn window_read(size: i64, advance: i64, phase: i64) -> WindowSpec
    ensures { result ≡ window_read size advance phase }
{
    WindowSpec {
        size: natural(size),
        advance: natural(advance),
        phase: natural(phase),
    }
}

/// What a box does on what it takes, and the schemas of its ports; or the first rule that it breaks.
#[tactic(auto, using(crate::proofs::LimitLemmas::takes_of))]
pub(crate) fn typed_body(
    alloc: Global,
    number: usize,
    body: &BodyTable,
    ins: &[Schema],
) -> Result<(Body, Vec<Schema>), NetErr>
    requires number { number < 2 ^ 32 }
    requires within { told_body_within body.now ≡ true }
    requires takes { takes_within (kind_of_told_body body.now) (length ins.now) ≡ true }
    ensures ok { IfOk result (λ t. typed_body number body.now ins.now ≡ Ok (t.0, t.1.items)) }
    ensures err { IfErr result (λ e. is_memory e ≡ false → typed_body number body.now ins.now ≡ Err e) }
{
    match body {
        BodyTable::Filter { preds } => filter_of(alloc, number, preds.as_slice(), first_of(ins)),
        BodyTable::Map { set } => map_of(alloc, number, set.as_slice(), first_of(ins)),
        BodyTable::Union => union_of(alloc, number, ins),
        BodyTable::BSort { by, slack } => bsort_of(alloc, number, by, *slack, first_of(ins)),
        BodyTable::Aggregate {
            size,
            advance,
            phase,
            group,
            give,
        } => typed_aggregate(
            alloc,
            number,
            window_read(*size, *advance, *phase),
            group.as_slice(),
            give.as_slice(),
            first_of(ins),
        ),
        BodyTable::Join { size, on } => join_of(alloc, number, *size, on, ins),
        BodyTable::Resample { size, give } => {
            typed_resample(alloc, number, natural(*size), give.as_slice(), ins)
        }
    }
}
