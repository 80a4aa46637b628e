//! Words on lists, options and results, and the lemmas about them and about std's that more than one crate needs.
//!
//! There is no code. Below stands std alone.
#![tactic(auto)]
