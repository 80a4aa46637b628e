//! Runs by slices of time: of each source the tuples of some ticks make a part, each part is run by itself, and of what it
//! answers the ticks of its slice are kept.
//!
//! The contracts promise how far a slice of each stream reaches into the sources, from the network alone, and which box is
//! the reason where there is none; that a part which has the sources so far answers its slice as the whole does; that slices,
//! one behind the other, are the whole answer, tuple by tuple; that behind BSorts this is so where each slice by itself is in
//! time; and that a slice has the same plans, drops the same batches and shows the same of what is left. Below stand the full
//! streams and the batches of `sq_model` and, for lists and the order of boxes, `sq_shard`. Slices, cuts and reaches are this
//! project's own.
#![tactic(auto)]

mod boxes;
mod cuts;
mod laws;
mod rounds;

pub use laws::{
    reaches_follow, slices_answer_slices, slices_drop_the_same, slices_make_the_run,
    slices_make_the_whole, slices_make_them_all, slices_plan_the_same, slices_show_the_run,
    slices_show_the_same, uncut_are_named,
};
pub use rounds::{first_uncut, output_reaches, outputs_reach, reaches, run_reach};

/// Where slices may end: at the ticks `phase`, `phase + step`, ..
#[derive(Clone, Copy, PartialEq, Eq, Drop)]
pub struct Grid {
    pub step: u64,
    pub phase: u64,
}

/// How far a slice of a stream reaches into the sources: `back` ticks before it, and `ahead` ticks behind it where it ends at one
/// of these cuts.
#[derive(Clone, Copy, PartialEq, Eq, Drop)]
pub struct Reach {
    pub back: u64,
    pub ahead: u64,
    pub cuts: Grid,
}
