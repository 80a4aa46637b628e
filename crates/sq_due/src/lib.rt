//! The lines that are due of a run, and who is shown its events: they are written line by line, or counted.
//!
//! What is due is deterministic: no schedule stands in it. An `Audience` takes what is shown: a `LineWriter` promises that it
//! has written a beginning of the lines of what it was shown, and all of them once it is closed, `Counts` that it holds how
//! many lines of each output and of each drop it was shown. `write_summary` writes these numbers, and `write_ends` the lines
//! at the end. Below stand the engine and the lines.
#![tactic(auto)]

mod audience;
mod counting;
mod lines;
mod summing;
mod writing;

pub use audience::Audience;
pub use counting::{Counts, no_counts};
pub use lines::LineWriter;
pub use summing::write_summary;
pub use writing::write_ends;
