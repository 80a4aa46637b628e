//! What a predicate asks to be equal of the two tuples of a pair.

ghost use Rattle.std.specs.Prelude.{◌≡◌, map, Some, IfOk, OnOk};
ghost use Rattle.sq_value.specs.Values.{field};
ghost use Rattle.sq_expr.specs.Apart.{numbers_for};
ghost use Rattle.sq_expr.specs.Trees.{Expr};
ghost use Rattle.sq_aggfn.specs.Groups.{group_of};
ghost use Rattle.sq_join.specs.EqualFields.{AreKeys};
ghost use Rattle.sq_pairs.specs.EqualPlaces.{Equates};
ghost use Rattle.sq_join.specs.Codes.{tuple_code, code_with_all, key_code, has_null, lone_number};

use sq_expr::SideExpression;
use sq_groups::Picked;
use sq_pairs::Condition;
use sq_value::{Tuple, Value};
use std::alloc::{AllocError, Global};
use std::hash::{FoldHasher, Hash, Hasher};

/// By this a number's size is spread over all 64 bits.
const SPREAD: u64 = 0x9e37_79b9_7f4a_7c15;

/// The greatest number of fields of a pair.
const MOST: usize = 16;

/// The places of the left and of the right tuple of a pair whose values a predicate asks to be the same, one by one. A left
/// tuple has as many fields as `width`.
#[derive(Drop)]
pub(crate) struct Keys {
    pub(crate) width: usize,
    pub(crate) left: Vec<u32>,
    pub(crate) right: Vec<u32>,
}

/// Two places, the first in front.
fn in_order(places: (usize, usize)) -> (usize, usize)
    ensures { (on : Expr) → Equates on places → Equates on result }
{
    if places.1 < places.0 {
        (places.1, places.0)
    } else {
        places
    }
}

impl Keys {
    /// Takes in two places, if they are those of a left and a right field.
    fn add(&mut self, places: (usize, usize)) -> Result<(), AllocError>
        ensures { OnOk result ((on : Expr) → Equates on places → AreKeys on self.old → AreKeys on self.new) }
    {
        let (first, second) = in_order(places);
        if first < self.width && self.width <= second && second < MOST {
            self.left.push(first as u32)?;
            self.right.push((second - self.width) as u32)?;
        }
        Ok(())
    }
}

/// The keys of a predicate. There may be no places in them.
pub(crate) fn keys_of(alloc: Global, on: &Condition) -> Result<Keys, AllocError>
    ensures { IfOk result (AreKeys on.now.tree) }
{
    let pairs = on.equated(alloc)?;
    let (width, _all) = on.widths();
    let mut keys = Keys {
        width,
        left: Vec::new(alloc),
        right: Vec::new(alloc),
    };
    for i in 0..pairs.len() {
        keys.add(pairs[i])?;
    }
    Ok(keys)
}

/// The number at the only place, where one stands there.
#[inline(always)]
fn lone_number(places: &[u32], fields: &[Value]) -> Option<i64>
    ensures { result ≡ lone_number (map (field fields.now) places.now) }
{
    match places {
        [place] => match fields.get(*place as usize) {
            Some(Value::Int(number)) => Some(*number),
            _ => None,
        },
        _ => None,
    }
}

/// Whether there is Null, or nothing, at one of these places.
fn has_null(places: &[u32], fields: &[Value]) -> bool
    ensures { result ≡ has_null (map (field fields.now) places.now) }
{
    match places {
        [] => false,
        [place, more @ ..] => match fields.get(*place as usize) {
            None | Some(Value::Null) => true,
            _ => has_null(more, fields),
        },
    }
}

/// The code of the values that a tuple has at some places, unless there is a Null among them.
#[inline(always)]
fn code_at(places: &[u32], x: &Tuple) -> Option<u64>
    ensures { result ≡ key_code (group_of places.now x.now) }
{
    let fields = x.fields.as_slice();
    if let Some(number) = lone_number(places, fields) {
        return Some(number.unsigned_abs().wrapping_mul(SPREAD));
    }
    if has_null(places, fields) {
        return None;
    }
    let mut hasher = FoldHasher::default();
    Picked::new(places, x).hash(&mut hasher);
    Some(hasher.finish())
}

/// A code with the numbers that stand for the values of some expressions, unless one is Null.
fn code_with_all(code: u64, parts: &[SideExpression], x: &Tuple) -> Option<u64>
    ensures { result ≡ code_with_all (Some code) (numbers_for parts.now x.now) }
{
    match parts {
        [] => Some(code),
        [part, more @ ..] => {
            let number = part.number(x)?;
            let next = code
                .wrapping_add(number.unsigned_abs())
                .wrapping_mul(SPREAD);
            code_with_all(next, more, x)
        }
    }
}

/// The code of a key in which are values of expressions.
#[inline(never)]
#[tactic(auto, using(crate::proofs::KeyLemmas::none_with_all))]
fn code_with_parts(places: &[u32], parts: &[SideExpression], x: &Tuple) -> Option<u64>
    ensures { result ≡ tuple_code places.now parts.now x.now }
{
    match code_at(places, x) {
        Some(code) => code_with_all(code, parts, x),
        None => None,
    }
}

/// The code of the key that a tuple has at some places and by some expressions, unless there is a Null in it: then it
/// equals no other.
#[inline(always)]
pub(crate) fn tuple_code(places: &[u32], parts: &[SideExpression], x: &Tuple) -> Option<u64>
    ensures { result ≡ tuple_code places.now parts.now x.now }
{
    if parts.is_empty() {
        return code_at(places, x);
    }
    code_with_parts(places, parts, x)
}
