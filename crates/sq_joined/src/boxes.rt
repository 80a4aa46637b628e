// The boxes of the joined network.
ghost use Rattle.std.specs.Prelude.{◌≡◌, ◌<◌, ◌^◌, ◌++◌, [], ◌∷◌, cond, length, codes, IfOk, OnOk, Ok, string_bytes};
ghost use Rattle.std.specs.Fmt.{decimal};
ghost use Rattle.sq_expr.specs.Grammar.{parse_in};
ghost use Rattle.sq_joined.specs.Staying.{staying, stays};
ghost use Rattle.sq_joined.specs.Joining.{not_before, tap_box};

use crate::wires::is_set;
use sq_expr::{Typed, check, grammar_is_read, parse};
use sq_net::{Body, Node};
use sq_value::{ListOf, Name, Schema, copy_schema, values_are_read_back};
use std::alloc::{AllocError, Global};

fn time_text(alloc: Global, from: u64) -> Result<String, AllocError>
    ensures { IfOk result (λ s. string_bytes s ≡ codes "time >= " ++ decimal from) }
{
    format!(in alloc; "time >= {from}")
}

// `time >= from`, read and checked as any predicate is.
fn not_before(alloc: Global, scope: &Schema, from: u64) -> Result<Typed, AllocError>
    requires { from < 2 ^ 40 }
    ensures { IfOk result (λ e. e ≡ not_before scope.now from) }
{
    grammar_is_read();
    values_are_read_back();
    let text = time_text(alloc, from)?;
    match parse(alloc, text.as_str()) {
        Ok(ast) => match check(alloc, &ast, scope) {
            Ok(e) => Ok(e),
            // It is read and it fits, so memory ran out.
            Err(_) => Err(AllocError),
        },
        Err(_) => Err(AllocError),
    }
}

fn two_schemas(alloc: Global, schema: &Schema) -> Result<Vec<Schema>, AllocError>
    ensures { IfOk result (λ v. v.items ≡ schema.now ∷ schema.now ∷ []) }
{
    let mut schemas = Vec::new(alloc);
    schemas.push(copy_schema(alloc, schema)?)?;
    schemas.push(copy_schema(alloc, schema)?)?;
    Ok(schemas)
}

fn whole_shares(alloc: Global) -> Result<Vec<u64>, AllocError>
    ensures { IfOk result (λ v. v.items ≡ 1000 ∷ 1000 ∷ []) }
{
    let mut shares = Vec::new(alloc);
    shares.push(1000)?;
    shares.push(1000)?;
    Ok(shares)
}

/// The Filter on the stream: its predicate is over the stream's columns, and its ports have the schema of the query's source.
pub(crate) fn tap_box(
    alloc: Global,
    scope: &Schema,
    schema: &Schema,
    from: u64,
) -> Result<Node, AllocError>
    requires { from < 2 ^ 40 }
    ensures { IfOk result (λ b. b ≡ tap_box scope.now schema.now from) }
{
    let mut preds = Vec::new(alloc);
    preds.push(not_before(alloc, scope, from)?)?;
    Ok(Node {
        name: Name::new(alloc, "tap")?,
        body: Body::Filter {
            preds: ListOf::new(preds),
        },
        schemas: ListOf::new(two_schemas(alloc, schema)?),
        cost: 1,
        selectivity: ListOf::new(whole_shares(alloc)?),
    })
}

fn push_where(kept: &mut Vec<Node>, stays: bool, node: Node) -> Result<(), AllocError>
    ensures { OnOk result (kept.new.items ≡ kept.old.items ++ cond stays (node ∷ []) []) }
{
    if stays {
        kept.push(node)?;
    }
    Ok(())
}

fn staying_boxes(alloc: Global, boxes: Vec<Node>, keep: &[bool]) -> Result<Vec<Node>, AllocError>
    requires { length boxes.items < 2 ^ 32 }
    ensures { IfOk result (λ v. v.items ≡ staying keep.now boxes.items) }
{
    let mut kept = Vec::new(alloc);
    let mut rest = boxes;
    let mut at = 0;
    while !rest.is_empty() {
        let node = rest.remove(0);
        push_where(&mut kept, is_set(keep, at), node)?;
        at += 1;
    }
    Ok(kept)
}

/// The boxes that stay, the tap, and the query's boxes.
pub(crate) fn joined_boxes(
    alloc: Global,
    boxes: Vec<Node>,
    keep: &[bool],
    tap: Node,
    query: Vec<Node>,
) -> Result<Vec<Node>, AllocError>
    requires { length boxes.items < 2 ^ 32 }
    ensures { IfOk result (λ v. v.items ≡ staying keep.now boxes.items ++ tap ∷ query.items) }
{
    let mut all = staying_boxes(alloc, boxes, keep)?;
    all.push(tap)?;
    let mut query = query;
    all.append(&mut query)?;
    Ok(all)
}
