//! Drop points: where a network may lose whole windows at their source.
//!
//! The contracts promise exactly the drop points of the definition in `specs/`, with what is below each, its distances and
//! its numbers, or the first that breaks a rule; and that no arc, box or output is below two. Each place costs one walk
//! along the boxes and their arcs. Below stand the wiring of `sq_graph` and the numbers of `sq_seen`. Dropping whole windows
//! early is after window-aware load shedding (N. Tatbul and S. Zdonik, VLDB 2006); the rules are this project's own.
#![tactic(auto)]

mod drops;
mod laws;
mod layout;
mod points;
mod regions;

pub use drops::drop_points;
pub use laws::drops_are_apart;
use sq_value::ListOf;
use std::alloc::AllocError;

/// Where a drop stands.
#[derive(Clone, Copy, PartialEq, Eq, Drop)]
pub enum DropAt {
    /// On all arcs of this stream.
    Stream(u32),
    /// On this arc alone.
    Arc(u32),
}

/// A drop point: where it stands, and what is below it.
#[derive(Drop)]
pub struct DropPoint {
    pub at: DropAt,
    /// The boxes below, by number.
    pub boxes: ListOf<u32>,
    /// The outputs below, by number.
    pub outputs: ListOf<u32>,
    /// The arcs below, by number, each with its distance: the most ticks that the windows on a path to it reach back.
    pub reach: ListOf<(u32, u64)>,
    /// The length of a batch in ticks, a multiple of the advance of each last window below.
    pub length: u64,
    /// How many ticks after a batch an output may still need its tuples.
    pub keep: u64,
}

/// Why there are no drop points: a drop's batch is too long, or what is needed of it too wide.
#[derive(Clone, Copy, Debug, PartialEq, Eq, Drop)]
pub enum PlaceErr {
    /// The batch of this drop is longer than 2^34 ticks.
    LongBatch { drop: u32 },
    /// The greatest distance below this drop, plus one, is over 4096 of its batches.
    WideExtent { drop: u32 },
    /// Memory ran out.
    Memory,
}

impl From<AllocError> for PlaceErr {
    ghost use Rattle.std.specs.Prelude.{◌≡◌};
    ghost use Rattle.sq_place.specs.declared.PlaceErr.{PlaceErr};
    ghost use Rattle.sq_place.specs.declared.PlaceErr.TheVariants as error;

    ghost from_gives = { λ _ e. e ≡ error.Memory };

    fn from(_e: AllocError) -> PlaceErr {
        PlaceErr::Memory
    }
}
