//! The keys of a map of groups.

ghost use Rattle.std.specs.Prelude.{◌≡◌, fold, IfOk};
ghost use Rattle.std.specs.Ordering.{is_eq, nat_cmp};
ghost use Rattle.std.specs.Cmp.Lexicographic.{slice_cmp};
ghost use Rattle.sq_value.specs.Values.{field, fields_cmp};
ghost use Rattle.sq_aggfn.specs.Groups.{group_of};
ghost use Rattle.sq_groups.specs.KeyWrites.{key_writes, value_writes};

use sq_aggfn::{Group, compare_fields, group_of};
use sq_value::{Tuple, Value, compare_bytes, copy_value};
use std::alloc::{AllocError, Global};
use std::cmp::Ordering;
use std::hash::{Hash, Hasher};
use std::marker::Model;

/// The order of texts by their bytes: the first eight as one number, since keys mostly differ there.
#[inline(always)]
pub(crate) fn compare_texts(a: &[u8], b: &[u8]) -> Ordering
    ensures { result ≡ slice_cmp nat_cmp a.now b.now }
{
    match (a.split_first_chunk::<8>(), b.split_first_chunk::<8>()) {
        (Some((x, xs)), Some((y, ys))) => {
            let first = u64::from_be_bytes(*x);
            let other = u64::from_be_bytes(*y);
            if first < other {
                return Ordering::Less;
            }
            if other < first {
                return Ordering::Greater;
            }
            compare_bytes(xs, ys)
        }
        _ => compare_bytes(a, b),
    }
}

/// The order of lists of values, found fast where both are one text.
#[inline(always)]
fn compare_keys(a: &[Value], b: &[Value]) -> Ordering
    ensures { result ≡ fields_cmp a.now b.now }
{
    match (a, b) {
        ([Value::Text(x)], [Value::Text(y)]) => compare_texts(x.as_bytes(), y.as_bytes()),
        _ => compare_fields(a, b),
    }
}

/// Feeds a hasher a value.
pub(crate) fn hash_value<H: Hasher>(value: &Value, state: &mut H)
    ensures { state.new ≡ fold H.write state.old (value_writes value.now) }
{
    match value {
        Value::Null => state.write_u8(0),
        Value::Int(number) => state.write_i64(*number),
        Value::Bool(truth) => state.write_u8(*truth as u8),
        Value::Text(text) => state.write(text.as_bytes()),
    }
}

/// Feeds a hasher some values, one after another.
#[tactic(auto, using(crate::proofs::KeyLemmas::fold_append))]
fn hash_values<H: Hasher>(values: &[Value], state: &mut H)
    ensures { state.new ≡ fold H.write state.old (key_writes values.now) }
{
    match values {
        [] => {}
        [first, rest @ ..] => {
            hash_value(first, state);
            hash_values(rest, state);
        }
    }
}

/// The value at a place, Null where there is none.
fn copy_at(fields: &[Value], place: u32) -> Result<Value, AllocError>
    ensures { IfOk result (λ v. v ≡ field fields.now place) }
{
    match fields.get(place as usize) {
        Some(value) => copy_value(value),
        None => Ok(Value::Null),
    }
}

/// Where the values of a key lie: one in the key itself, so that a look-up in a map reads no other memory for it.
#[derive(Drop)]
enum KeyValues {
    One(Value),
    Many(Group),
}

/// A group in a map of groups. Contracts see its list of values.
#[derive(Drop)]
pub struct Key {
    lying: KeyValues,
}

impl Model for Key {
    ghost use Rattle.std.specs.Prelude.{List};
    ghost use Rattle.sq_value.specs.declared.Value.{Value as Datum};
    ghost use Rattle.sq_groups.specs.KeyValues.{values_lying};

    ghost Value = { List Datum };

    ghost view = { λ k. values_lying k.lying };
}

impl Key {
    /// The key of a group.
    #[inline]
    pub fn new(group: Group) -> Key
        ensures { result ≡ group }
    {
        Key {
            lying: KeyValues::Many(group),
        }
    }

    /// The key of the group of a tuple by some places.
    pub fn of(alloc: Global, by: &[u32], t: &Tuple) -> Result<Key, AllocError>
        ensures { IfOk result (λ k. k ≡ group_of by.now t.now) }
    {
        match by {
            [place] => {
                let value = copy_at(t.fields.as_slice(), *place)?;
                Ok(Key {
                    lying: KeyValues::One(value),
                })
            }
            _ => {
                let group = group_of(alloc, by, t)?;
                Ok(Key::new(group))
            }
        }
    }

    /// The values of the group that it is the key of.
    #[inline(always)]
    pub fn as_slice(&self) -> &[Value]
        ensures { result.now ≡ self.now }
    {
        match &self.lying {
            KeyValues::One(value) => std::slice::from_ref(value),
            KeyValues::Many(group) => group.as_slice(),
        }
    }

    /// Whether it is the key of a group.
    pub fn is_of(&self, group: &Group) -> bool
        ensures { result ≡ is_eq (fields_cmp group.now self.now) }
    {
        compare_fields(group.as_slice(), self.as_slice()) == Ordering::Equal
    }
}

impl PartialEq for Key {
    ghost use Rattle.std.specs.Ordering.{eq_by_cmp};
    ghost use Rattle.std.specs.Cmp.{partial_equiv_from_equiv, eq_by_cmp_equiv};
    ghost use Rattle.sq_value.specs.Values.{fields_cmp};
    ghost use Rattle.sq_value.proofs.ValueOrder.{fields_order};

    ghost eq = { eq_by_cmp fields_cmp };

    ghost laws = { partial_equiv_from_equiv (eq_by_cmp_equiv fields_order) };

    #[inline(always)]
    fn eq(&self, other: &Key) -> bool {
        self.cmp(other) == Ordering::Equal
    }
}

impl Eq for Key {
    ghost use Rattle.std.specs.Cmp.{eq_by_cmp_equiv};
    ghost use Rattle.sq_value.proofs.ValueOrder.{fields_order};

    ghost laws = { eq_by_cmp_equiv fields_order };
}

impl PartialOrd for Key {
    ghost use Rattle.std.specs.Prelude.{refl};
    ghost use Rattle.std.specs.Ordering.{as_partial_cmp};
    ghost use Rattle.std.specs.Cmp.{po};
    ghost use Rattle.sq_value.specs.Values.{fields_cmp};
    ghost use Rattle.sq_value.proofs.ValueOrder.{fields_order};

    ghost partial_cmp = { as_partial_cmp fields_cmp };

    ghost laws = { po fields_order (λ x y. refl) };

    #[inline(always)]
    fn partial_cmp(&self, other: &Key) -> Option<Ordering> {
        Some(self.cmp(other))
    }
}

impl Ord for Key {
    ghost use Rattle.std.proofs.Common.{rules};
    ghost use Rattle.sq_value.specs.Values.{fields_cmp};
    ghost use Rattle.sq_value.proofs.ValueOrder.{fields_order};

    ghost cmp = { fields_cmp };

    ghost total = { fields_order };

    ghost matches_partial_cmp = { Prim.search rules };

    ghost matches_eq = { Prim.search rules };

    #[inline(always)]
    fn cmp(&self, other: &Key) -> Ordering {
        compare_keys(self.as_slice(), other.as_slice())
    }
}

/// A text alone is one write, found without a call.
impl Hash for Key {
    ghost use Rattle.std.proofs.Common.{ap};
    ghost use Rattle.std.proofs.lemmas.Map.Views.{tells_apart};
    ghost use Rattle.sq_value.proofs.ValueOrder.{fields_same};
    ghost use Rattle.sq_groups.specs.KeyWrites.{key_writes};

    ghost hash_input = { key_writes };

    ghost respects_eq = { λ x y same. ap key_writes (tells_apart fields_same x y same) };

    #[inline(always)]
    fn hash<H: Hasher>(&self, state: &mut H) {
        match self.as_slice() {
            [Value::Text(text)] => state.write(text.as_bytes()),
            values => hash_values(values, state),
        }
    }
}
