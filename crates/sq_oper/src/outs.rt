//! What operators give, and what a run shows.

ghost use Rattle.std.specs.Prelude.{◌≡◌, []};

use sq_item::Item;
use sq_value::Tuple;
use std::alloc::Global;

/// A batch of windows that a window drop threw away.
#[derive(Clone, Copy, PartialEq, Eq, Drop)]
pub struct Decision {
    /// The number of the window drop.
    pub drop: u32,
    pub batch: u64,
    /// The level of the batch's first epoch, in permille.
    pub level: u32,
}

/// What a run shows, one event at a time.
#[derive(Drop)]
pub enum Event {
    /// A tuple at an output.
    Line {
        output: u32,
        tuple: Tuple,
    },
    /// A batch that was dropped.
    Dropped(Decision),
    /// The plan of an epoch: its load, its capacity, what the plan saves, and whether the rest fits.
    Plan {
        epoch: u64,
        load: u128,
        capacity: u128,
        saved: u128,
        fits: bool,
    },
}

/// What an operator gave: items with their ports, and the batches that it dropped.
#[derive(Drop)]
pub struct Outs {
    pub items: Vec<(u32, Item)>,
    pub drops: Vec<Decision>,
}

impl Outs {
    /// Nothing yet.
    pub fn new(alloc: Global) -> Outs
        ensures items { result.items.items ≡ [] }
        ensures drops { result.drops.items ≡ [] }
    {
        Outs {
            items: Vec::new(alloc),
            drops: Vec::new(alloc),
        }
    }
}
