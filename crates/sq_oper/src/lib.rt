//! The law of operators: what a box, a window drop or an output promises of each item that it is fed.
//!
//! An operator's meaning is `rest`: what it will still give at each port, for a table of levels and a list of marks and
//! tuples that may still come. A feed gives a first part of it and leaves the rest; so what was given, then the rest,
//! is the same before and after, and nothing that was fed has to be remembered. What may be held back after a feed is a
//! member too, and never grows. The law says what no member means: the `new` of each kind of operator does. So an engine
//! can stand on this law alone and know no kind of box. Below stand items, levels and the counter of steps.
#![tactic(auto)]

mod laws;
mod operator;
mod outlet;
mod outs;
mod tally;

pub use laws::ports_have_their_streams;
pub use operator::Operator;
pub use outlet::Outlet;
pub use outs::{Decision, Event, Outs};
pub use tally::{Position, Tally, tick_if};
