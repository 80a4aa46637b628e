//! Groups that are looked up by the values of a tuple.

ghost use Rattle.std.specs.Prelude.{◌≡◌, [], ◌∷◌, fold, map, IfSome};
ghost use Rattle.sq_value.specs.declared.Value.TheVariants as value;
ghost use Rattle.sq_value.specs.Values.{field, fields_cmp, value_cmp};
ghost use Rattle.sq_aggfn.specs.Groups.{group_of};
ghost use Rattle.sq_groups.specs.KeyWrites.{key_writes, value_writes};

use crate::key::{Key, compare_texts, hash_value};
use indexmap::Equivalent;
use sq_value::{Tuple, Txt, Value, compare};
use std::cmp::Ordering;
use std::hash::{Hash, Hasher};
use std::marker::Model;

/// The value at the only place, where it is a text.
#[inline(always)]
fn lone_text<'a>(by: &[u32], fields: &'a [Value]) -> Option<&'a Txt>
    ensures { IfSome result (λ text. map (field fields.now) by.now ≡ value.Text text.now ∷ []) }
{
    match by {
        [place] => match fields.get(*place as usize) {
            Some(Value::Text(text)) => Some(text),
            _ => None,
        },
        _ => None,
    }
}

/// The order of the value at a place, Null where there is none, and another.
fn compare_at(fields: &[Value], place: u32, other: &Value) -> Ordering
    ensures { result ≡ value_cmp (field fields.now place) other.now }
{
    match fields.get(place as usize) {
        Some(value) => compare(value, other),
        None => compare(&Value::Null, other),
    }
}

/// The order of the values at two places, each Null where there is none.
fn compare_both(fields: &[Value], place: u32, others: &[Value], other: u32) -> Ordering
    ensures { result ≡ value_cmp (field fields.now place) (field others.now other) }
{
    match others.get(other as usize) {
        Some(value) => compare_at(fields, place, value),
        None => compare_at(fields, place, &Value::Null),
    }
}

/// The order of the values at some places and a list of values.
fn compare_values(by: &[u32], fields: &[Value], values: &[Value]) -> Ordering
    ensures { result ≡ fields_cmp (map (field fields.now) by.now) values.now }
{
    match by {
        [] => match values {
            [] => Ordering::Equal,
            [_, ..] => Ordering::Less,
        },
        [place, places @ ..] => match values {
            [] => Ordering::Greater,
            [value, rest @ ..] => match compare_at(fields, *place, value) {
                Ordering::Less => Ordering::Less,
                Ordering::Equal => compare_values(places, fields, rest),
                Ordering::Greater => Ordering::Greater,
            },
        },
    }
}

/// The order of the values at some places and those of others at other places.
fn compare_places(by: &[u32], fields: &[Value], other_by: &[u32], others: &[Value]) -> Ordering
    ensures { result ≡ fields_cmp (map (field fields.now) by.now) (map (field others.now) other_by.now) }
{
    match by {
        [] => match other_by {
            [] => Ordering::Equal,
            [_, ..] => Ordering::Less,
        },
        [place, places @ ..] => match other_by {
            [] => Ordering::Greater,
            [other, rest @ ..] => match compare_both(fields, *place, others, *other) {
                Ordering::Less => Ordering::Less,
                Ordering::Equal => compare_places(places, fields, rest, others),
                Ordering::Greater => Ordering::Greater,
            },
        },
    }
}

/// Feeds a hasher the value at a place, Null where there is none.
fn hash_at<H: Hasher>(fields: &[Value], place: u32, state: &mut H)
    ensures { state.new ≡ fold H.write state.old (value_writes (field fields.now place)) }
{
    match fields.get(place as usize) {
        Some(value) => hash_value(value, state),
        None => state.write_u8(0),
    }
}

/// Feeds a hasher the values at some places, one after another.
#[tactic(auto, using(crate::proofs::KeyLemmas::fold_append))]
fn hash_places<H: Hasher>(by: &[u32], fields: &[Value], state: &mut H)
    ensures { state.new ≡ fold H.write state.old (key_writes (map (field fields.now) by.now)) }
{
    match by {
        [] => {}
        [place, places @ ..] => {
            hash_at(fields, *place, state);
            hash_places(places, fields, state);
        }
    }
}

/// The values of a tuple at some places: what a group is looked up by where none is made. Contracts see their list.
#[derive(Drop)]
pub struct Picked<'a> {
    by: &'a [u32],
    fields: &'a [Value],
}

impl<'a> Model for Picked<'a> {
    ghost use Rattle.std.specs.Prelude.{List, map};
    ghost use Rattle.sq_value.specs.declared.Value.{Value as Datum};
    ghost use Rattle.sq_value.specs.Values.{field};

    ghost Value = { List Datum };

    ghost view = { λ p. map (field p.fields.now) p.by.now };
}

impl<'a> Picked<'a> {
    /// Those of a tuple at these places, Null where one isn't there: its group.
    #[inline(always)]
    pub fn new(by: &'a [u32], t: &'a Tuple) -> Picked<'a>
        ensures { result ≡ group_of by.now t.now }
    {
        Picked {
            by,
            fields: t.fields.as_slice(),
        }
    }

    /// The order of these values and a list of values, found fast where both are one text.
    #[inline(always)]
    fn compare_with(&self, values: &[Value]) -> Ordering
        ensures { result ≡ fields_cmp self.now values.now }
    {
        match (lone_text(self.by, self.fields), values) {
            (Some(x), [Value::Text(y)]) => compare_texts(x.as_bytes(), y.as_bytes()),
            _ => compare_values(self.by, self.fields, values),
        }
    }
}

impl<'a> PartialEq for Picked<'a> {
    ghost use Rattle.std.specs.Ordering.{eq_by_cmp};
    ghost use Rattle.std.specs.Cmp.{partial_equiv_from_equiv, eq_by_cmp_equiv};
    ghost use Rattle.sq_value.specs.Values.{fields_cmp};
    ghost use Rattle.sq_value.proofs.ValueOrder.{fields_order};

    ghost eq = { eq_by_cmp fields_cmp };

    ghost laws = { partial_equiv_from_equiv (eq_by_cmp_equiv fields_order) };

    fn eq(&self, other: &Picked<'a>) -> bool {
        compare_places(self.by, self.fields, other.by, other.fields) == Ordering::Equal
    }
}

impl<'a> Eq for Picked<'a> {
    ghost use Rattle.std.specs.Cmp.{eq_by_cmp_equiv};
    ghost use Rattle.sq_value.proofs.ValueOrder.{fields_order};

    ghost laws = { eq_by_cmp_equiv fields_order };
}

/// What the key of the group feeds: a text alone is one write, found without a call.
impl<'a> Hash for Picked<'a> {
    ghost use Rattle.std.proofs.Common.{ap};
    ghost use Rattle.std.proofs.lemmas.Map.Views.{tells_apart};
    ghost use Rattle.sq_value.proofs.ValueOrder.{fields_same};
    ghost use Rattle.sq_groups.specs.KeyWrites.{key_writes};

    ghost hash_input = { key_writes };

    ghost respects_eq = { λ x y same. ap key_writes (tells_apart fields_same x y same) };

    #[inline(always)]
    fn hash<H: Hasher>(&self, state: &mut H) {
        match lone_text(self.by, self.fields) {
            Some(text) => state.write(text.as_bytes()),
            None => hash_places(self.by, self.fields, state),
        }
    }
}

impl<'a> Equivalent<Key> for &Picked<'a> {
    ghost use Rattle.std.specs.Ordering.{eq_by_cmp};
    ghost use Rattle.std.specs.Cmp.{eq_by_cmp_equiv};
    ghost use Rattle.std.proofs.Common.{ap};
    ghost use Rattle.std.proofs.lemmas.Map.Views.{tells_apart};
    ghost use Rattle.sq_value.specs.Values.{fields_cmp};
    ghost use Rattle.sq_value.proofs.ValueOrder.{fields_order, fields_same};
    ghost use Rattle.sq_groups.specs.KeyWrites.{key_writes};

    ghost equivalent = { λ q. eq_by_cmp fields_cmp q.now };

    ghost respects_hash = { λ q k same. ap key_writes (tells_apart fields_same q.now k same) };

    ghost respects_eq = { λ q. (eq_by_cmp_equiv fields_order).congr q.now };

    #[inline(always)]
    fn equivalent(&self, key: &Key) -> bool {
        self.compare_with(key.as_slice()) == Ordering::Equal
    }
}
