//! Runs in parts: sources are cut by classes of a key, each part is run by itself, and its outputs are put together.
//!
//! The contracts promise of each stream of a network by which of its columns the parts have cut it, or that they have it
//! whole; that what a part answers is that part of the whole answer; that the answers of the parts, put together by time,
//! are the whole one but for the order of tuples of one time and different parts; and which box is the first to lose the
//! key. They speak of full answers, so of runs that drop nothing. Below stand the typed network and the full streams of
//! `sq_model`. Classes, cuts and what each box does to them are this project's own.
#![tactic(auto)]

mod boxes;
mod columns;
mod cuts;
mod laws;
mod losses;

pub use cuts::{inputs_of, key_columns};
pub use laws::{cuts_follow, losses_are_named, parts_answer_parts, parts_make_the_whole};
pub use losses::first_loss;
use sq_value::ListOf;

/// What a part has of a stream.
#[derive(Drop)]
pub enum Cut {
    /// All of it.
    Whole,
    /// The tuples whose key is of the part's class. The key stands in each of these columns, which are counted from 0; where
    /// there is none, nothing is known of the part.
    By { columns: ListOf<u32> },
}
