//! Tests of the lower libraries by their public calls, of what neither a clause says nor a run shows: outside vectors, a page by its
//! bytes, streams and feeds that come in pieces, and objects that tell what they hold. It offers nothing.
//!
//! They stand here and not in the crates that they test, since a crate with tests is proved a second time, as a program with
//! them: here a test costs just its own functions. What a run shows stands beside `sq_cases`, as data.
#![tactic(auto)]

#[cfg(test)]
mod feeds;
#[cfg(test)]
mod intake;
#[cfg(test)]
mod page;
#[cfg(test)]
mod road;
#[cfg(test)]
mod sched;
#[cfg(test)]
mod told;
