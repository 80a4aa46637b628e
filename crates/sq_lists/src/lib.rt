//! The boxes as functions of whole lists, plain and slow, for definitions, runs, audits and tests; and the parts of them
//! that boxes which are fed one item at a time share.
//!
//! Each call gives exactly the list of its definition in `specs/`; only want of memory stands beside it. The boxes that
//! are fed one item at a time promise the same lists. Below stand values, expressions and aggregate functions.
#![tactic(auto)]

mod buffer;
mod laws;
mod merges;
mod resamples;
mod sides;
mod sorter;
mod sorts;
mod tuples;
mod windows;

pub use laws::boxes_keep_streams;
pub use merges::{merge, merge_two};
pub use resamples::{resample_list, with_answers};
pub use sides::{Sides, begins_past, passing_pair};
pub use sorter::Sorter;
pub use sorts::{bsort_list, time_in_field};
pub use tuples::{filter_list, map_into, map_list, port_of_tuple};
pub use windows::aggregate_list;
