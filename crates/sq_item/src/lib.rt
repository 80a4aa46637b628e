//! Items: what stands on an arc of a network, a mark of a batch, a tuple, or a mark that rides on a tuple.
//!
//! The contract promises that a copy is the item again, and what a program may make: a tick with a mark, a tuple of 1 to
//! 16 values or both, and a bound that stays small (`specs/SoundItems`). What items stand for, the mark and then the tuple, is
//! defined in `specs/Things` for the layers above. Below stand the values alone. Marks are after window-aware load
//! shedding (N. Tatbul and S. Zdonik, VLDB 2006); their rules are this project's own.
#![tactic(auto)]

ghost use Rattle.std.specs.Prelude.{◌≡◌, ◌≤◌, IfOk, None, Some, is_some, length};
ghost use Rattle.sq_item.specs.SoundItems.{IsSoundItem, IsMark};
ghost use Rattle.sq_item.specs.Words.{values_of};

use sq_value::{Fields, Value, copy_fields};
use std::alloc::{AllocError, Global};
use std::marker::Model;

/// What a window drop says of a batch of windows, at the tick at which the batch begins.
#[derive(Clone, Copy, PartialEq, Eq, Drop)]
pub enum Mark {
    /// The batch is permitted: its tuples are needed at the ticks below `until`, which is below 2^47.
    Open { until: u64 },
    /// The batch is dropped.
    Closed,
}

/// A mark, a tuple, or a mark that rides on a tuple of its time.
#[derive(Drop)]
pub struct Item {
    /// A tick: below 2^40.
    pub time: u64,
    pub mark: Sign,
    /// The values of the tuple.
    pub body: Body,
}

/// A mark or none, in one word. Contracts see the optional mark.
#[derive(Drop)]
pub struct Sign {
    word: u64,
}

impl Model for Sign {
    ghost use Rattle.std.specs.Prelude.{Option};
    ghost use Rattle.sq_item.specs.declared.Mark.{Mark};
    ghost use Rattle.sq_item.specs.Words.{sign_of};

    ghost Value = { Option Mark };

    ghost view = { λ a. sign_of a.word };
}

impl Sign {
    /// A mark, or none.
    #[inline]
    pub fn new(mark: Option<Mark>) -> Sign
        requires { IsMark mark }
        ensures { result ≡ mark }
    {
        match mark {
            None => Sign { word: 0 },
            Some(Mark::Closed) => Sign { word: 1 },
            Some(Mark::Open { until }) => Sign { word: until + 2 },
        }
    }

    /// No mark.
    #[inline]
    pub fn none() -> Sign
        ensures { result ≡ None }
    {
        Sign { word: 0 }
    }

    /// The mark, where there is one.
    #[inline]
    pub fn get(&self) -> Option<Mark>
        ensures { result ≡ self.now }
    {
        if self.word == 0 {
            return None;
        }
        if self.word == 1 {
            return Some(Mark::Closed);
        }
        Some(Mark::Open {
            until: self.word - 2,
        })
    }

    /// There is a mark.
    #[inline]
    pub fn is_some(&self) -> bool
        ensures { result ≡ is_some self.now }
    {
        self.word != 0
    }
}

/// The values of a tuple, or none, which no values say. Contracts see the optional list.
#[derive(Drop)]
pub struct Body {
    fields: Fields,
}

impl Model for Body {
    ghost use Rattle.std.specs.Prelude.{Option, List};
    ghost use Rattle.sq_value.specs.declared.Value.{Value as Datum};
    ghost use Rattle.sq_item.specs.Words.{body_of};

    ghost Value = { Option (List Datum) };

    ghost view = { λ a. body_of a.fields };
}

impl Body {
    /// No tuple.
    #[inline]
    pub fn none(alloc: Global) -> Body
        ensures { result ≡ None }
    {
        Body {
            fields: Fields::new(Vec::new(alloc)),
        }
    }

    /// The values of a tuple, of which there are some.
    #[inline]
    pub fn some(fields: Fields) -> Body
        requires { 1 ≤ length fields }
        ensures { result ≡ Some fields }
    {
        Body { fields }
    }

    /// There is a tuple.
    #[inline]
    pub fn is_some(&self) -> bool
        ensures { result ≡ is_some self.now }
    {
        !self.fields.as_slice().is_empty()
    }

    /// The values; none where there is no tuple.
    #[inline]
    pub fn as_slice(&self) -> &[Value]
        ensures { result.now ≡ values_of self.now }
    {
        self.fields.as_slice()
    }

    /// The tuple's values, where there is one.
    #[inline]
    pub fn get(self) -> Option<Fields>
        ensures { result ≡ self }
    {
        if self.fields.as_slice().is_empty() {
            return None;
        }
        Some(self.fields)
    }
}

fn copy_body(body: &Body) -> Result<Body, AllocError>
    ensures { IfOk result (λ copy. copy ≡ body.now) }
{
    let fields = copy_fields(&body.fields)?;
    Ok(Body { fields })
}

/// A copy of an item.
pub fn copy_item(item: &Item) -> Result<Item, AllocError>
    requires { IsSoundItem item.now }
    ensures copy { IfOk result (λ copy. copy ≡ item.now) }
    ensures sound { IfOk result (λ copy. IsSoundItem copy) }
{
    let body = copy_body(&item.body)?;
    Ok(Item {
        time: item.time,
        mark: Sign {
            word: item.mark.word,
        },
        body,
    })
}
