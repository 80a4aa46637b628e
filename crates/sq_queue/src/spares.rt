// Vectors of values that are done with, kept to be used again.
ghost use Rattle.std.specs.Prelude.{◌≡◌, [], IfOk};
ghost use Rattle.sq_item.specs.SoundItems.{IsSoundItem};

use sq_item::{Body, Item, Sign};
use sq_value::{Fields, Value, copy_value};
use std::alloc::{AllocError, Global};
use std::marker::Model;

// How many are kept at most.
const MOST: usize = 64;

/// Vectors of values that were let go, so that the next values may need no memory. Contracts see none of them.
#[derive(Drop)]
pub struct Spares {
    vectors: Vec<Vec<Value>>,
}

impl Model for Spares {
    ghost Value = { Unit {0} };

    ghost view = { λ s. tt };
}

impl Spares {
    /// None is kept yet; there is room for all.
    pub fn new(alloc: Global) -> Result<Spares, AllocError> {
        let vectors = Vec::with_capacity(alloc, MOST)?;
        Ok(Spares { vectors })
    }

    /// Lets values go, and keeps their vector where there is room.
    #[inline(always)]
    pub fn keep(&mut self, fields: Fields) {
        let mut values = fields.into_vec();
        values.clear();
        if self.vectors.len() < self.vectors.capacity() {
            self.vectors.push_reserved(values);
        }
    }

    /// The same of an item's values.
    #[inline(always)]
    pub fn keep_item(&mut self, item: Item) {
        if let Some(fields) = item.body.get() {
            self.keep(fields);
        }
    }

    /// A vector without values: one that is kept, or else one that has no memory yet.
    #[inline(always)]
    pub fn reuse(&mut self, alloc: Global) -> Vec<Value>
        ensures { result.items ≡ [] }
    {
        match self.vectors.pop() {
            Some(mut values) => {
                values.clear();
                values
            }
            None => Vec::new(alloc),
        }
    }

    /// A copy of an item, whose values are put into a vector that is kept, where there is one.
    pub fn copy_item(&mut self, item: &Item) -> Result<Item, AllocError>
        requires { IsSoundItem item.now }
        ensures copy { IfOk result (λ copy. copy ≡ item.now) }
        ensures sound { IfOk result IsSoundItem }
    {
        let alloc = *self.vectors.allocator();
        let body = if item.body.is_some() {
            let copies = copy_into(self.reuse(alloc), item.body.as_slice())?;
            Body::some(Fields::new(copies))
        } else {
            Body::none(alloc)
        };
        Ok(Item {
            time: item.time,
            mark: Sign::new(item.mark.get()),
            body,
        })
    }
}

// Copies of values, put into a vector without any.
fn copy_into(mut copies: Vec<Value>, values: &[Value]) -> Result<Vec<Value>, AllocError>
    requires empty { copies.items ≡ [] }
    ensures { IfOk result (λ made. made.items ≡ values.now) }
{
    copies.reserve_exact(values.len())?;
    for value in values {
        copies.push(copy_value(value)?)?;
    }
    Ok(copies)
}
