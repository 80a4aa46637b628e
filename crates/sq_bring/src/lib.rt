//! A page of a queue, brought back from the pool into a frame.
//!
//! Of a page of items it is kept which it is, where the first that isn't taken begins, how many there are from there on, and where
//! they end. The contract of `bring_page` promises, over every disk, that it ends Ok only where the bytes that came back fit that, and
//! tells of each refusal why. Where the pages of the disk are known, the page is the one that was put, and all other
//! pages stay. Below stand the pages of items and the pool.
#![tactic(auto)]

mod bring;

pub use bring::{Kept, QueueErr, bring_page, failed};
