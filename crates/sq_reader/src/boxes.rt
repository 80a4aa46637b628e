// The boxes by the columns of what they take.
ghost use Rattle.std.specs.Prelude.{◌≡◌, ◌<◌, ◌^◌, ◌++◌, ◌&&◌, not, true, false, Ok, Err, IfOk, IfErr, IfSome, length, option_map, replicate};
ghost use Rattle.std.specs.List.{list_all};
ghost use Rattle.sq_words.specs.Lists.{contains_bytes};
ghost use Rattle.sq_graph.specs.Wires.{producer_of};
ghost use Rattle.sq_net.specs.Names.{is_name};
ghost use Rattle.sq_reader.specs.Columns.{bad_name, columns_known, columns_taken, kinds_set, same_columns, same_names, set_names, set_texts};
ghost use Rattle.sq_reader.specs.Expressions.{may_be_predicate, may_be_set, typed_from, typed_in};
ghost use Rattle.sq_rules.specs.Limits.{first_failing, is_expression_long};
ghost use Rattle.sq_tables.specs.Refusals.{is_memory};

use crate::expressions::{parsed, predicate_in, set_in};
use crate::push;
use crate::sources::is_among;
use sq_expr::{Ast, Typed, same_kinds};
use sq_graph::{Producer, Wiring, given_by};
use sq_net::{NetErr, Node, Source};
use sq_rules::is_name;
use sq_tables::Setting;
use sq_value::{Kind, Name, Schema, copy_name, copy_schema, same_text};
use std::alloc::{AllocError, Global};

fn same_names(a: &[Name], b: &[Name]) -> bool
    ensures { result ≡ same_names a.now b.now }
{
    match a {
        [] => match b {
            [] => true,
            [_, ..] => false,
        },
        [x, more_a @ ..] => match b {
            [] => false,
            [y, more_b @ ..] => same_text(x.as_str(), y.as_str()) && same_names(more_a, more_b),
        },
    }
}

fn same_columns(a: &Schema, b: &Schema) -> bool
    ensures { result ≡ same_columns a.now b.now }
{
    same_names(a.names(), b.names()) && same_kinds(a.kinds(), b.kinds())
}

pub(crate) fn unlike(ins: &[Schema], first: &Schema) -> Option<usize>
    ensures first { result ≡ first_failing (λ ds. same_columns ds first.now) ins.now }
    ensures within { IfSome result (λ i. i < length ins.now) }
{
    ins.iter().position(|schema| !same_columns(schema, first))
}

fn is_new_name(name: &str, before: &[Name], earlier: &[Name]) -> bool
    ensures { result ≡ is_name name.now && not (contains_bytes name.now (before.now ++ earlier.now)) }
{
    is_name(name) && !is_among(name, before) && !is_among(name, earlier)
}

/// The first of these names that is none, is one of those before, or repeats an earlier one.
pub(crate) fn bad_name(before: &[Name], names: &[Name]) -> Option<usize>
    ensures first { result ≡ bad_name before.now names.now }
    ensures within { IfSome result (λ i. i < length names.now) }
{
    for (item, name) in names.iter().enumerate() {
        if !is_new_name(name.as_str(), before, &names[..item]) {
            return Some(item);
        }
    }
    None
}

pub(crate) fn names_set(alloc: Global, set: &[Setting]) -> Result<Vec<Name>, AllocError>
    ensures { IfOk result (λ v. v.items ≡ set_names set.now) }
{
    let mut names = Vec::new(alloc);
    for setting in set {
        names.push(copy_name(&setting.name)?)?;
    }
    Ok(names)
}

pub(crate) fn texts_set(alloc: Global, set: &[Setting]) -> Result<Vec<Name>, AllocError>
    ensures { IfOk result (λ v. v.items ≡ set_texts set.now) }
{
    let mut texts = Vec::new(alloc);
    for setting in set {
        texts.push(copy_name(&setting.text)?)?;
    }
    Ok(texts)
}

pub(crate) fn kinds_set(alloc: Global, exprs: &[Typed]) -> Result<Vec<Kind>, AllocError>
    ensures { IfOk result (λ v. v.items ≡ kinds_set exprs.now) }
{
    exprs.iter().filter_map(|e| e.kind()).collect(alloc)
}

fn predicates(
    alloc: Global,
    number: usize,
    asts: &[Ast],
    scope: &Schema,
) -> Result<Vec<Typed>, NetErr>
    requires number { number < 2 ^ 32 }
    requires few { length asts.now < 2 ^ 32 }
    ensures ok { IfOk result (λ v. typed_from number 0 may_be_predicate scope.now asts.now ≡ Ok v.items) }
    ensures err { IfErr result (λ e. is_memory e ≡ false → typed_from number 0 may_be_predicate scope.now asts.now ≡ Err e) }
{
    let mut typed = Vec::new(alloc);
    for (item, ast) in asts.iter().enumerate() {
        match predicate_in(alloc, number, item, ast, scope) {
            Ok(e) => push(&mut typed, e)?,
            Err(e) => return Err(e),
        }
    }
    Ok(typed)
}

fn values(alloc: Global, number: usize, asts: &[Ast], scope: &Schema) -> Result<Vec<Typed>, NetErr>
    requires number { number < 2 ^ 32 }
    requires few { length asts.now < 2 ^ 32 }
    ensures ok { IfOk result (λ v. typed_from number 0 may_be_set scope.now asts.now ≡ Ok v.items) }
    ensures err { IfErr result (λ e. is_memory e ≡ false → typed_from number 0 may_be_set scope.now asts.now ≡ Err e) }
{
    let mut typed = Vec::new(alloc);
    for (item, ast) in asts.iter().enumerate() {
        match set_in(alloc, number, item, ast, scope) {
            Ok(e) => push(&mut typed, e)?,
            Err(e) => return Err(e),
        }
    }
    Ok(typed)
}

#[tactic(auto, using(crate::proofs::TypedLemmas::parsed_length))]
pub(crate) fn predicates_in(
    alloc: Global,
    number: usize,
    texts: &[Name],
    scope: &Schema,
) -> Result<Vec<Typed>, NetErr>
    requires number { number < 2 ^ 32 }
    requires few { length texts.now < 2 ^ 32 }
    requires long { list_all is_expression_long texts.now ≡ true }
    ensures ok { IfOk result (λ v. typed_in number may_be_predicate scope.now texts.now ≡ Ok v.items) }
    ensures err { IfErr result (λ e. is_memory e ≡ false → typed_in number may_be_predicate scope.now texts.now ≡ Err e) }
{
    let asts = parsed(alloc, number, texts)?;
    predicates(alloc, number, &asts, scope)
}

#[tactic(auto, using(crate::proofs::TypedLemmas::parsed_length))]
pub(crate) fn values_in(
    alloc: Global,
    number: usize,
    texts: &[Name],
    scope: &Schema,
) -> Result<Vec<Typed>, NetErr>
    requires number { number < 2 ^ 32 }
    requires few { length texts.now < 2 ^ 32 }
    requires long { list_all is_expression_long texts.now ≡ true }
    ensures ok { IfOk result (λ v. typed_in number may_be_set scope.now texts.now ≡ Ok v.items) }
    ensures err { IfErr result (λ e. is_memory e ≡ false → typed_in number may_be_set scope.now texts.now ≡ Err e) }
{
    let asts = parsed(alloc, number, texts)?;
    values(alloc, number, &asts, scope)
}

pub(crate) fn copies_of(
    alloc: Global,
    schema: &Schema,
    ports: usize,
) -> Result<Vec<Schema>, AllocError>
    ensures { IfOk result (λ v. v.items ≡ replicate ports schema.now) }
{
    let mut copies = Vec::new(alloc);
    for _port in 0..ports {
        copies.push(copy_schema(alloc, schema)?)?;
    }
    Ok(copies)
}

fn schema_known<'a>(
    w: &Wiring,
    sources: &'a [Source],
    nodes: &'a [Option<Node>],
    stream: u32,
) -> Option<&'a Schema>
    requires { length w.now.boxes < 2 ^ 32 }
    ensures { option_map (λ s. s.now) result ≡ columns_known sources.now nodes.now (producer_of w.now stream) }
{
    match given_by(w, stream)? {
        Producer::Source { source } => Some(&sources.get(source as usize)?.schema),
        Producer::Port { at, port } => {
            let node = nodes.get(at as usize)?.as_ref()?;
            node.schemas.as_slice().get(port as usize)
        }
    }
}

/// Copies of the schemas of these streams, as far as the boxes are typed.
pub(crate) fn schemas_taken(
    alloc: Global,
    w: &Wiring,
    sources: &[Source],
    nodes: &[Option<Node>],
    inputs: &[u32],
) -> Result<Vec<Schema>, AllocError>
    requires { length w.now.boxes < 2 ^ 32 }
    ensures { IfOk result (λ v. v.items ≡ columns_taken w.now sources.now nodes.now inputs.now) }
{
    let mut taken = Vec::new(alloc);
    for stream in inputs {
        if let Some(schema) = schema_known(w, sources, nodes, *stream) {
            taken.push(copy_schema(alloc, schema)?)?;
        }
    }
    Ok(taken)
}
