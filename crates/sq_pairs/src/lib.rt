//! The pairs of a Join: what a pair has to pass, and the pairs of one tuple, put into a list.
//!
//! A condition is a predicate on pairs, beside two places that it equates: where numbers stand there that differ, no pair passes and
//! the predicate isn't asked. The contract promises that what passes is what the definition of a Join pairs, in its order, each pair
//! once. Below stand the list functions and expressions.
#![tactic(auto)]

mod condition;
mod pairs;

pub use condition::Condition;
pub use pairs::{push_pair, push_pairs};
