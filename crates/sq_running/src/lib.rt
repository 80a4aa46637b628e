//! Running states: the states of a fold over a list of tuples that grows behind and goes in front.
//!
//! The contracts promise that what is told of all tuples that are held is joined from two states, whatever came and went, and
//! that a tuple which goes takes one state with it. So two stacks, each with its running states, make a queue (described by
//! K. Tangwongsan, M. Hirzel and S. Schneider, Low-latency sliding-window aggregation in worst-case constant time, DEBS 2017).
//! Below stand the folds and the tuples of one side.
#![tactic(auto)]

mod running;

pub use running::{Held, answers_held, hold, let_go};
