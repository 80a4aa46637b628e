//! Join, fed one item at a time.
//!
//! A Join keeps the law of operators, and what a new one gives is exactly the list function of a Join on whole lists. It
//! gives a pair as soon as its later tuple comes, so it holds nothing back, decides nothing and throws nothing away. Its
//! state keeps only tuples that a later one can still meet. Below stand the law, the pairs that a condition passes, the list functions and
//! expressions.
#![tactic(auto)]

mod index;
mod join;
mod keys;
mod list;
mod side_indexes;
mod sides;

pub use join::JoinBox;
pub use list::join_list;
