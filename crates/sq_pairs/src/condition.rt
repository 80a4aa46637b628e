//! What a pair has to pass.

ghost use Rattle.std.specs.Prelude.{◌≡◌, ◌++◌, ◌∷◌, [], IfOk, IfSome, false, length, take, true};
ghost use Rattle.std.specs.List.{AllByRecursion, filter};
ghost use Rattle.std.specs.Option.{option_to_list};
ghost use Rattle.sq_value.specs.declared.Value.{Value as V};
ghost use Rattle.sq_value.specs.Values.{field};
ghost use Rattle.sq_expr.specs.Apart.{PartsAgree};
ghost use Rattle.sq_expr.specs.Expressions.{holds_of, pair_of};
ghost use Rattle.sq_words.specs.Lists.{same_bytes};
ghost use Rattle.sq_lists.specs.Pairs.{left_fields};
ghost use Rattle.sq_lists.specs.Sides.{pairs_with};
ghost use Rattle.sq_pairs.specs.EqualPlaces.{Equates};

use sq_expr::{EqualParts, Typed, equal_parts, equated_fields};
use sq_lists::passing_pair;
use sq_value::{Name, Tuple, Value};
use std::alloc::{AllocError, Global};
use std::marker::Model;

/// A predicate on pairs, with two places of a pair, where it has some, whose values are the same in each pair that passes:
/// where these are numbers that differ the predicate isn't asked. Contracts see the predicate.
#[derive(Drop)]
pub struct Condition {
    on: Typed,
    equal: Option<(usize, usize)>,
}

impl Model for Condition {
    ghost use Rattle.std.specs.Prelude.{IfSome};
    ghost use Rattle.sq_expr.specs.Trees.{Checked, checked_code};
    ghost use Rattle.sq_pairs.specs.EqualPlaces.{Equates};

    ghost Value = { Checked };

    ghost coded = { checked_code };

    ghost view = { λ a. a.on };

    ghost invariant = { λ a. IfSome a.equal (Equates a.on.tree) };
}

/// The first two places that a predicate equates, where it equates any and there is memory to find them.
fn first_equated(alloc: Global, on: &Typed) -> Option<(usize, usize)>
    ensures { IfSome result (Equates on.now.tree) }
{
    let Ok(pairs) = equated_fields(alloc, on) else {
        return None;
    };
    match pairs.first() {
        Some(places) => Some(*places),
        None => None,
    }
}

/// Whether a name is that of a left field.
fn is_left(name: &Name) -> bool
    ensures { result ≡ same_bytes (take 2 name.now) (108 ∷ 95 ∷ []) }
{
    name.as_str().starts_with("l_")
}

/// How many of these names are those of left fields.
fn left_names(names: &[Name]) -> usize
    ensures { result ≡ length (filter (λ name. same_bytes (take 2 name) (108 ∷ 95 ∷ [])) names.now) }
{
    let mut count = 0;
    for name in names {
        if is_left(name) {
            count += 1;
        }
    }
    count
}

/// The number at a place of a pair, where one stands there. The left fields stand first.
#[inline(always)]
fn number_at(left: &[Value], right: &[Value], place: usize) -> Option<i64>
    ensures { IfSome result (λ number. field (left.now ++ right.now) place ≡ V.Int number) }
{
    let value = if place < left.len() {
        left.get(place)
    } else {
        right.get(place - left.len())
    };
    match value {
        Some(Value::Int(number)) => Some(*number),
        _ => None,
    }
}

/// Whether numbers stand at two places of a pair, and differ.
#[inline(always)]
fn differ(left: &Tuple, right: &Tuple, places: (usize, usize)) -> bool
    ensures { result ≡ true → field (pair_of left.now right.now).fields places.0 ≡ field (pair_of left.now right.now).fields places.1 → ⊥ }
{
    let (first, second) = (left.fields.as_slice(), right.fields.as_slice());
    match (
        number_at(first, second, places.0),
        number_at(first, second, places.1),
    ) {
        (Some(one), Some(other)) => one != other,
        _ => false,
    }
}

impl Condition {
    /// The condition that a predicate is true of a pair.
    pub fn of(alloc: Global, on: Typed) -> Condition
        ensures { result ≡ on }
    {
        let equal = first_equated(alloc, &on);
        Condition { on, equal }
    }

    /// Pairs of places, each of which the predicate equates; it may equate more.
    pub fn equated(&self, alloc: Global) -> Result<Vec<(usize, usize)>, AllocError>
        ensures { IfOk result (λ pairs. AllByRecursion (Equates self.now.tree) pairs.items) }
    {
        equated_fields(alloc, &self.on)
    }

    /// Expressions over left fields and over right ones, beside bare fields, that the predicate equates; it may equate more. A left
    /// tuple has as many fields as `width`.
    pub fn equal_parts(&self, alloc: Global, width: usize) -> Result<EqualParts, AllocError>
        ensures { IfOk result (λ parts. PartsAgree self.now.tree width parts.left.items parts.right.items) }
    {
        equal_parts(alloc, &self.on, width)
    }

    /// How many fields a left tuple has, and how many a pair, by the columns of the predicate.
    pub fn widths(&self) -> (usize, usize)
        ensures left { result.0 ≡ left_fields self.now.scope }
        ensures all { result.1 ≡ length self.now.scope }
    {
        let names = self.on.scope().names();
        (left_names(names), names.len())
    }

    /// Whether a pair may pass.
    #[inline(always)]
    fn may_pass(&self, left: &Tuple, right: &Tuple) -> bool
        ensures { result ≡ false → holds_of self.now.tree (pair_of left.now right.now) ≡ false }
    {
        match self.equal {
            Some(places) => !differ(left, right, places),
            None => true,
        }
    }

    /// A tuple that comes at a side in one with a tuple of the other side, if the pair passes. Side 0 is the left one.
    #[inline(always)]
    pub fn passing_pair(
        &self,
        alloc: Global,
        side: u32,
        x: &Tuple,
        other: &Tuple,
    ) -> Result<Option<Tuple>, AllocError>
        ensures { IfOk result (λ o. option_to_list o ≡ pairs_with self.now.tree side x.now (other.now ∷ [])) }
    {
        let may_pass = if side == 0 {
            self.may_pass(x, other)
        } else {
            self.may_pass(other, x)
        };
        if !may_pass {
            return Ok(None);
        }
        passing_pair(alloc, &self.on, side, x, other)
    }
}
