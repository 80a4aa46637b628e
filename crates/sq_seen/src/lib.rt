//! What is seen of a place from below it: the numbers of a drop point, worked out box by box.
//!
//! The contracts promise what an arc sees where two meet and behind each box, exactly as `specs/Reaches` defines it: how far
//! the place lies at most, whether a path without an Aggregate leads there, and of the last Aggregates on the paths the least
//! common multiple of the advances, as far as it is of use, and the least margin. What these numbers are for a whole network
//! is proved above. Below stand the windows of `sq_aggfn`.
#![tactic(auto)]

mod numbers;
mod seen;

pub use numbers::capped_lcm;
pub use seen::{Seen, itself, join, nothing, past};
