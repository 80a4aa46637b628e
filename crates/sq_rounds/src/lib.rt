//! The rounds of a Resample: left tuples that are given, each with the answers over the right ones held round it.
//!
//! The contracts promise that the left tuples which are past are given, and no other, each with what a fold tells of the
//! right ones near it, as the list function of a Resample says, and that a right tuple goes once no later left one needs it.
//! Below stand the running states, the outlet of the law, the list functions and the folds.
#![tactic(auto)]

mod held;
mod rounds;

pub use rounds::{give_all, give_ready};
