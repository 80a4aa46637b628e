//! The full answer of a network, that at full load, and what is dropped, shown and fed where load is shed. It is plain and
//! slow, for runs that need no engine, for audits and for tests.
//!
//! The full stream of a source is its recorded tuples, and that of a port is what its box gives for the full streams
//! that it takes. The contracts promise exactly these lists, how many tuples each box is fed and how many of them come too
//! late for a BSort; and of a replay with capacities and a seed exactly the batches that each drop records, the answers
//! without them, and the tuples that are still needed, want of memory aside. Below stand the boxes as functions of whole
//! lists, the typed network, its drop points and the planner. Dropping whole windows early is after window-aware load
//! shedding (N. Tatbul and S. Zdonik, VLDB 2006); the rules are this project's own.
#![tactic(auto)]

mod answers;
mod arcs;
mod boxes;
mod drops;
mod epochs;
mod known;
mod laws;
mod numbers;
mod streams;

pub use answers::{answer, dropped, work};
pub use arcs::full;
pub use laws::{
    full_streams_are_streams, full_streams_fit, full_streams_follow, late_tuples_are_the_rest,
    sound_is_placed,
};
pub use numbers::{fed, late};
pub use streams::full_streams;
