//! What each output of a run is to show by the batches that are recorded as dropped, and how far it has come.
//!
//! An output's place is where the tuples of its stream stand that it hasn't shown. The contracts promise, of any sets that hold the
//! record: `next_place` finds the first tuple from a place on that lies in no batch of the drop above, and `has_more` tells whether
//! the output, behind some lines, is still to show one. Below stand `sq_lines` (the line of a tuple) and `sq_value`.
#![tactic(auto)]

mod skipping;
mod wanted;

pub use skipping::next_place;
pub use wanted::{Wanted, has_more};
