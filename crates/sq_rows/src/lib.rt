//! Rows of states that a fold gave, joined in their order.
//!
//! The contract promises that a part of a row is joined to a state one after another, from its first to its last, so that a
//! fold which asks in what order it was told, as `first` does, is told in that of the row, which is the order of time above;
//! and how many tuples the join then holds at most. Below stand the folds of `sq_aggfn`.
#![tactic(auto)]

mod rows;

pub use rows::take_in_row;
