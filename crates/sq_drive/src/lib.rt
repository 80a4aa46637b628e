//! A run that was accepted, driven to its end: the engine's steps, before an audience that writes the lines that are due, or
//! counts them.
//!
//! `drive` promises that an engine which ends has written exactly the lines that are due of each output and drop and of the plans, and
//! any other end a prefix of each, with the cause of its status. `count` counts the same lines in place of writing them. Both step the
//! engine by one loop, before an `Audience`, which takes what is shown: a `LineWriter` or `Counts`. Below stand the engine, its schedules
//! and the lines that are due.
#![tactic(auto)]

mod driving;

pub use driving::{count, drive};
