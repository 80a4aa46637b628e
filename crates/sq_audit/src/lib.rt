//! The audit of the text of a run: whether it shows, for each output of a network, exactly the full answer less the batches that
//! the text itself records as dropped.
//!
//! The contract of `audit_text` promises the verdict of the definitions for a network and what its sources recorded. It needs no
//! engine, no capacities and no seed, so it doesn't say that a batch had to be dropped. A law says that a text with what a run of
//! any capacities and seed is to write has the verdict yes. Below stand `sq_verdict` (the verdict where the streams are given),
//! `sq_model` (the full streams, plain and slow) and `sq_points` (the drop points of a network).
#![tactic(auto)]

mod auditing;
mod laws;
mod telling;

pub use auditing::audit_text;
pub use laws::whole_is_accepted;
pub use telling::append_verdict_line;
