//! The verdict on the text of a run, where the streams are given: whether it shows, for each output, exactly its stream less the
//! batches that the text itself records as dropped.
//!
//! The contract of `verdict_of` promises the verdict of the definitions, want of memory aside: the first line that has a fault and
//! which, or that something is missing behind lines without one, or yes. No network, engine, capacities or seed stand in it, so it
//! doesn't say that a batch had to be dropped. The text is gone over twice, a line at a time, since a later line may record the
//! batch of an earlier tuple: once for what it records, and once beside the streams. No list of lines is built. Below stand
//! `sq_wanted` (what each output is to show, and how far it has come), `sq_lines` (the lines, their classes and what they are) and
//! `sq_value`.
#![tactic(auto)]

mod cutting;
mod dropping;
mod recording;
mod verdict;
mod walking;

pub use sq_wanted::Wanted;
pub use verdict::{AuditWhy, Verdict};
pub use walking::verdict_of;
