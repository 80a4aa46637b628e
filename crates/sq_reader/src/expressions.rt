// The expressions of a box: all are read, then all are checked in the scope that its input gives.
ghost use Rattle.std.specs.Prelude.{◌≡◌, ◌<◌, ◌≤◌, ◌^◌, true, false, Ok, Err, IfOk, IfErr, length};
ghost use Rattle.std.specs.List.{list_all};
ghost use Rattle.sq_expr.specs.Checking.{check_in};
ghost use Rattle.sq_expr.specs.Grammar.{parse_in};
ghost use Rattle.sq_net.specs.declared.NetErr.TheVariants as broken;
ghost use Rattle.sq_net.specs.declared.Part.TheVariants as part;
ghost use Rattle.sq_reader.specs.Expressions.{allowed, may_be_predicate, may_be_set, or_no_expression, parsed_from, predicate_of};
ghost use Rattle.sq_rules.specs.Limits.{is_expression_long};
ghost use Rattle.sq_tables.specs.Places.{place_at};
ghost use Rattle.sq_tables.specs.Refusals.{IsAnswerOf, is_memory};

use crate::push;
use sq_expr::{Ast, TypeErr, Typed, What, check, parse};
use sq_net::{NetErr, Part};
use sq_rules::place_at;
use sq_value::{Kind, Name, Schema};
use std::alloc::Global;

fn expression_in(alloc: Global, number: usize, item: usize, text: &str) -> Result<Ast, NetErr>
    requires number { number < 2 ^ 32 }
    requires item { item < 2 ^ 32 }
    requires length { length text.now ≤ 4096 }
    ensures { IsAnswerOf result (or_no_expression number item (parse_in text.now)) }
{
    match parse(alloc, text) {
        Ok(ast) => Ok(ast),
        Err(e) => {
            if e.what == What::Memory {
                return Err(NetErr::Memory);
            }
            Err(NetErr::Expr(place_at(Part::Box, number, item), e))
        }
    }
}

pub(crate) fn parsed(alloc: Global, number: usize, texts: &[Name]) -> Result<Vec<Ast>, NetErr>
    requires number { number < 2 ^ 32 }
    requires few { length texts.now < 2 ^ 32 }
    requires long { list_all is_expression_long texts.now ≡ true }
    ensures ok { IfOk result (λ v. parsed_from number 0 texts.now ≡ Ok v.items) }
    ensures err { IfErr result (λ e. is_memory e ≡ false → parsed_from number 0 texts.now ≡ Err e) }
{
    let mut asts = Vec::new(alloc);
    for (item, text) in texts.iter().enumerate() {
        let ast = expression_in(alloc, number, item, text.as_str())?;
        push(&mut asts, ast)?;
    }
    Ok(asts)
}

fn typing_fault(number: usize, item: usize) -> NetErr
    requires number { number < 2 ^ 32 }
    requires item { item < 2 ^ 32 }
    ensures { result ≡ broken.Typing (place_at part.Box number item) }
{
    NetErr::Typing(place_at(Part::Box, number, item))
}

fn is_predicate(kind: Option<Kind>) -> bool
    ensures { result ≡ may_be_predicate kind }
{
    match kind {
        None => true,
        Some(kind) => kind == Kind::Bool,
    }
}

pub(crate) fn predicate_in(
    alloc: Global,
    number: usize,
    item: usize,
    ast: &Ast,
    scope: &Schema,
) -> Result<Typed, NetErr>
    requires number { number < 2 ^ 32 }
    requires item { item < 2 ^ 32 }
    ensures { IsAnswerOf result (allowed (broken.Typing (place_at part.Box number item)) may_be_predicate scope.now (check_in scope.now ast.now)) }
{
    match check(alloc, ast, scope) {
        Ok(e) => {
            if !is_predicate(e.kind()) {
                return Err(typing_fault(number, item));
            }
            Ok(e)
        }
        Err(TypeErr::Memory) => Err(NetErr::Memory),
        Err(_) => Err(typing_fault(number, item)),
    }
}

pub(crate) fn set_in(
    alloc: Global,
    number: usize,
    item: usize,
    ast: &Ast,
    scope: &Schema,
) -> Result<Typed, NetErr>
    requires number { number < 2 ^ 32 }
    requires item { item < 2 ^ 32 }
    ensures { IsAnswerOf result (allowed (broken.Typing (place_at part.Box number item)) may_be_set scope.now (check_in scope.now ast.now)) }
{
    match check(alloc, ast, scope) {
        Ok(e) => {
            if e.kind().is_none() {
                return Err(typing_fault(number, item));
            }
            Ok(e)
        }
        Err(TypeErr::Memory) => Err(NetErr::Memory),
        Err(_) => Err(typing_fault(number, item)),
    }
}

/// The predicate that a text is, in this scope.
pub(crate) fn predicate_of(
    alloc: Global,
    number: usize,
    text: &Name,
    scope: &Schema,
) -> Result<Typed, NetErr>
    requires number { number < 2 ^ 32 }
    requires long { is_expression_long text.now ≡ true }
    ensures { IsAnswerOf result (predicate_of number scope.now text.now) }
{
    let ast = expression_in(alloc, number, 0, text.as_str())?;
    predicate_in(alloc, number, 0, &ast, scope)
}
