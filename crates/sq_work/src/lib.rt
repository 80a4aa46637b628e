//! What a call works on: the files that its command names, in their order, and what is accepted of them.
//!
//! Each function promises that, by the names and the bytes that the folder's reads gave, the script of the words leads to what was
//! accepted; or else the status and its cause: the first rule that is broken, the file that isn't read, or want of memory. Nothing is
//! replayed here. A new command brings its script and the function that follows it. Below stand the commands, the statuses, and the
//! readers of networks, streams, capacities and picks, the maker of large runs and the joiner of queries.
#![tactic(auto)]

mod auditing;
mod generating;
mod reading;
mod tapping;

pub use auditing::prepare_audit;
pub use generating::prepare_made;
pub use reading::{Accepted, Stopped, prepare, read_file, stopped_by};
pub use tapping::{Asked, first_tick, prepare_tap};
