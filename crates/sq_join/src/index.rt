//! Where the tuples that are held of a side stand, by their keys.

ghost use Rattle.std.specs.Prelude.{◌≡◌, ℕ, ◌+◌, ◌^◌, ◌<◌, ◌==◌, ◌++◌, ◌∷◌, [], List, false, true, length, slice_get, IfOk, MatchOption, Some, if◌then◌else◌};
ghost use Rattle.sq_value.specs.declared.Tuple.{Tuple as T};
ghost use Rattle.sq_join.specs.Codes.{tuple_code, row_at_code};
ghost use Rattle.sq_join.specs.Indexes.{belongs_at, positions_in, positions_in_row, row_count, IsIndex, IsOfSameKeys};

use crate::keys::tuple_code;
use sq_expr::SideExpression;
use sq_value::Tuple;
use std::alloc::{AllocError, Global};
use std::collections::VecDeque;

/// The positions of the tuples that are held of a side and have a key with no Null: in rows by the remainder of the key's
/// code, each row ascending. They count on from that of the first tuple. There are no rows where few tuples are held, where
/// one of them has an unusual number of fields, or where there was no memory.
#[derive(Drop)]
pub(crate) struct Index {
    places: Vec<u32>,
    parts: Vec<SideExpression>,
    width: usize,
    pub(crate) first: usize,
    pub(crate) rows: Vec<VecDeque<usize>>,
}

/// Rows in which nothing stands.
fn bare_rows(alloc: Global, count: usize) -> Result<Vec<VecDeque<usize>>, AllocError>
    ensures len { IfOk result (λ rows. length rows.items ≡ count) }
    ensures bare { IfOk result (λ rows. (row : ℕ) → positions_in (slice_get rows.items row) ≡ []) }
{
    let mut rows = Vec::with_capacity(alloc, count)?;
    for _row in 0..count {
        rows.push(VecDeque::new(alloc))?;
    }
    Ok(rows)
}

impl Index {
    /// The index of a side of which nothing is held, by the key at these places and of these expressions.
    pub(crate) fn new(
        alloc: Global,
        places: Vec<u32>,
        parts: Vec<SideExpression>,
        width: usize,
    ) -> Index
        ensures keys { (result.places ≡ places) × ((result.parts ≡ parts) × (result.width ≡ width)) }
        ensures index { IsIndex [] result }
    {
        Index {
            places,
            parts,
            width,
            first: 0,
            rows: Vec::new(alloc),
        }
    }

    /// Whether a tuple of this side is as wide as usual.
    #[inline(always)]
    pub(crate) fn is_even(&self, x: &Tuple) -> bool
        ensures { result ≡ (length x.now.fields == self.now.width) }
    {
        x.fields.as_slice().len() == self.width
    }

    /// The code of a tuple's key.
    #[inline(always)]
    pub(crate) fn code_in(&self, x: &Tuple) -> Option<u64>
        ensures { result ≡ tuple_code self.now.places.items self.now.parts.items x.now }
    {
        tuple_code(&self.places, &self.parts, x)
    }

    /// The row in which a key of this code belongs, where there are rows.
    #[inline(always)]
    pub(crate) fn row_of(&self, code: u64) -> Option<usize>
        ensures { MatchOption result (row_count self.now ≡ 0) (λ row. (row < row_count self.now) × (row ≡ row_at_code (row_count self.now) code)) }
    {
        let rows = self.rows.len();
        if rows == 0 {
            return None;
        }
        Some((code as u128 * rows as u128 >> 64) as usize)
    }

    /// The row in which a tuple belongs.
    #[inline(always)]
    fn row_with(&self, x: &Tuple) -> Option<usize>
        ensures { MatchOption result ((row : ℕ) → row < row_count self.now → belongs_at self.now.places.items self.now.parts.items (row_count self.now) row x.now ≡ false)
            (λ its. (its < row_count self.now) × ((row : ℕ) → belongs_at self.now.places.items self.now.parts.items (row_count self.now) row x.now ≡ (its == row))) }
    {
        match self.code_in(x) {
            Some(code) => self.row_of(code),
            None => None,
        }
    }

    /// Puts a position behind the others in a tuple's row, if the tuple is as wide as the others and there is memory.
    #[inline(always)]
    fn put(&mut self, at: usize, x: &Tuple) -> bool
        ensures even { result ≡ true → length x.now.fields ≡ self.old.width }
        ensures rows { result ≡ true → (row : ℕ) → row < row_count self.old → positions_in_row self.new row
            ≡ positions_in_row self.old row ++ (if belongs_at self.old.places.items self.old.parts.items (row_count self.old) row x.now then at ∷ [] else []) }
        ensures len { result ≡ true → row_count self.new ≡ row_count self.old }
        ensures same { IsOfSameKeys self.old self.new }
        ensures first { self.new.first ≡ self.old.first }
    {
        if !self.is_even(x) {
            return false;
        }
        match self.row_with(x) {
            Some(row) => self.rows[row].push_back(at).is_ok(),
            None => true,
        }
    }

    /// Takes in a tuple that comes behind so many.
    #[inline(always)]
    fn add(&mut self, count: usize, x: &Tuple)
        requires { self.old.first + count + 1 < 2 ^ 64 }
        ensures index { (held : List T) → length held ≡ count → IsIndex held self.old → IsIndex (held ++ x.now ∷ []) self.new }
        ensures same { IsOfSameKeys self.old self.new }
        ensures first { self.new.first ≡ self.old.first }
    {
        if !self.rows.is_empty() && !self.put(self.first + count, x) {
            self.rows.clear();
        }
    }

    /// Lets go of the first tuple.
    #[inline(always)]
    pub(crate) fn drop_first(&mut self, x: &Tuple)
        requires { self.old.first + 1 < 2 ^ 64 }
        ensures index { (held : List T) → IsIndex (x.now ∷ held) self.old → IsIndex held self.new }
        ensures same { IsOfSameKeys self.old self.new }
    {
        self.first += 1;
        if let Some(row) = self.row_with(x) {
            self.rows[row].pop_front();
        }
    }

    /// Takes in all that is held anew, in about as many rows.
    #[inline(never)]
    fn build(&mut self, held: &VecDeque<Tuple>)
        ensures index { IsIndex held.now.items self.new }
        ensures same { IsOfSameKeys self.old self.new }
        ensures first { self.new.first ≡ 0 }
    {
        let alloc = *held.allocator();
        self.first = 0;
        self.rows = match bare_rows(alloc, held.len() / 2 * 2 + 1) {
            Ok(rows) => rows,
            Err(_) => Vec::new(alloc),
        };
        for i in 0..held.len() {
            self.add(i, &held[i]);
        }
    }

    /// Takes in a tuple that comes behind what is held.
    #[inline(always)]
    pub(crate) fn push_last(&mut self, held: &VecDeque<Tuple>, x: &Tuple)
        requires { IsIndex held.now.items self.old }
        ensures index { IsIndex (held.now.items ++ x.now ∷ []) self.new }
        ensures same { IsOfSameKeys self.old self.new }
    {
        let is_full = held.len() > 8 && held.len() / 2 > self.rows.len();
        if (is_full && self.is_even(x)) || self.first >= 1 << 63 {
            self.build(held);
        }
        self.add(held.len(), x);
    }
}
