//! The rules on a network file's tables that need no columns: the limits of numbers and lengths, names, streams by their
//! names, cycles, and windows.
//!
//! The contract of `wired_tables` promises the wiring that the tables say, with the order of its boxes, where they keep each
//! of these rules, and else the first rule that they break with its first place; want of memory aside. What boxes do on the
//! columns that they take, and the rules on that, stand above. Below stand the tables, and the wiring of boxes.
#![tactic(auto)]

mod limits;
mod names;
mod places;
mod rules;
mod streams;
mod windows;

pub use names::is_name;
pub use places::{part_place, place_at};
pub use rules::{Wired, wired_tables};
