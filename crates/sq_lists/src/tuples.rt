//! Filter and Map.

ghost use Rattle.std.specs.Prelude.{◌≡◌, ◌≤◌, [], map, length, IfOk};
ghost use Rattle.sq_lists.specs.Boxes.{port_taken, filter_list_of, mapped, map_list_of};

use sq_expr::{Typed, eval, holds};
use sq_value::{ListOf, Tuple, Value, copy_tuple};
use std::alloc::{AllocError, Global};

/// The port of a tuple: the number of the first predicate that is true, else their number. Null is not true.
pub fn port_of_tuple(preds: &[Typed], tuple: &Tuple) -> usize
    ensures port { result ≡ port_taken (map (λ e. e.tree) preds.now) tuple.now }
    ensures most { result ≤ length preds.now }
{
    for (i, p) in preds.iter().enumerate() {
        if holds(p, tuple) {
            return i;
        }
    }
    preds.len()
}

/// The tuples that a Filter gives at a port, numbered from 0 (after SQuAl's Filter: Abadi and others, VLDB Journal 2003).
pub fn filter_list(
    alloc: Global,
    preds: &[Typed],
    port: u32,
    tuples: &[Tuple],
) -> Result<Vec<Tuple>, AllocError>
    ensures { IfOk result (λ kept. kept.items ≡ filter_list_of (map (λ e. e.tree) preds.now) port tuples.now) }
{
    let mut kept = Vec::new(alloc);
    for x in tuples {
        if port_of_tuple(preds, x) == port as usize {
            kept.push(copy_tuple(x)?)?;
        }
    }
    Ok(kept)
}

/// What a Map gives for a tuple: a tuple of the same time, with the values of the expressions. They stand in the vector that is
/// handed in.
pub fn map_into(mut fields: Vec<Value>, exprs: &[Typed], tuple: &Tuple) -> Result<Tuple, AllocError>
    requires empty { fields.items ≡ [] }
    ensures { IfOk result (λ m. m ≡ mapped (map (λ e. e.tree) exprs.now) tuple.now) }
{
    fields.reserve_exact(exprs.len())?;
    for e in exprs {
        fields.push(eval(e, tuple)?)?;
    }
    Ok(Tuple {
        time: tuple.time,
        fields: ListOf::new(fields),
    })
}

/// The tuples that a Map gives (after SQuAl's Map, a generalised projection).
pub fn map_list(alloc: Global, exprs: &[Typed], tuples: &[Tuple]) -> Result<Vec<Tuple>, AllocError>
    ensures { IfOk result (λ made. made.items ≡ map_list_of (map (λ e. e.tree) exprs.now) tuples.now) }
{
    let mut made = Vec::new(alloc);
    for x in tuples {
        made.push(map_into(Vec::new(alloc), exprs, x)?)?;
    }
    Ok(made)
}
